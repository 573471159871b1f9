//! Lines of JSON.

ghost use Rattle.std.specs.Prelude.{◌≡◌, false, IfOk};
ghost use Rattle.contract_words.specs.Writes.{Writes};
ghost use Rattle.serde_json.specs.View.{members_view};
ghost use Rattle.serde_json.specs.Written.{members_have_float};
ghost use Rattle.resource_text.specs.LineJson.{line_members, line_json, set_aside_json};

use serde_json::{Map, Value, put};
use std::alloc::{AllocError, Global};
use std::io::{self, Write};

/// What the line of a kind begins with: what kind it is.
pub fn line_members(alloc: Global, kind: &str) -> Result<Map<String, Value>, AllocError>
    ensures { IfOk result (λ members. members_view members.entries ≡ line_members kind.now) }
{
    let mut members = Map::new(alloc);
    let kind = Value::try_from_str(alloc, kind)?;
    put(&mut members, alloc, "line", kind)?;
    Ok(members)
}

/// Writes the line with these members.
pub fn write_line<W: Write + Drop>(
    alloc: Global,
    members: Map<String, Value>,
    out: &mut W,
) -> io::Result<()>
    requires { members_have_float (members_view members.entries) ≡ false }
    ensures { Writes W.contents out.old out.new result (line_json (members_view members.entries)) }
{
    let line = Value::Object(members).to_vec(alloc)?;
    out.write_all(&line)?;
    out.write_all(b"\n")
}

/// Writes the line that says how many rows are set aside.
#[tactic(auto, unfolding(crate::specs::LineJson::set_aside_json))]
pub fn write_set_aside_json<W: Write + Drop>(count: u128, out: &mut W) -> io::Result<()>
    ensures { Writes W.contents out.old out.new result (set_aside_json count) }
{
    writeln!(out, "{{\"count\":{count},\"line\":\"set-aside\"}}")
}
