//! JSON objects of few members.

ghost use Rattle.std.specs.Prelude.{◌≡◌, IfOk};
ghost use Rattle.serde_json.specs.Data.{object, no_members, put as with_member};
ghost use Rattle.serde_json.specs.View.{view};

use serde_json::{Map, Value, put};
use std::alloc::{AllocError, Global};

/// The object of one member, a name with a value.
pub(crate) fn object_of_one(alloc: Global, member: (&str, Value)) -> Result<Value, AllocError>
    ensures { IfOk result (λ value. view value ≡ object (with_member member.entry.0.now (view member.entry.1) no_members)) }
{
    let mut members = Map::new(alloc);
    put(&mut members, alloc, member.0, member.1)?;
    Ok(Value::Object(members))
}

/// The object of two members.
pub(crate) fn object_of_two(
    alloc: Global,
    first: (&str, Value),
    second: (&str, Value),
) -> Result<Value, AllocError>
    ensures { IfOk result (λ value. view value ≡ object
        (with_member second.entry.0.now (view second.entry.1)
        (with_member first.entry.0.now (view first.entry.1) no_members))) }
{
    let mut members = Map::new(alloc);
    put(&mut members, alloc, first.0, first.1)?;
    put(&mut members, alloc, second.0, second.1)?;
    Ok(Value::Object(members))
}

/// The object of three members.
pub(crate) fn object_of_three(
    alloc: Global,
    first: (&str, Value),
    second: (&str, Value),
    third: (&str, Value),
) -> Result<Value, AllocError>
    ensures { IfOk result (λ value. view value ≡ object
        (with_member third.entry.0.now (view third.entry.1)
        (with_member second.entry.0.now (view second.entry.1)
        (with_member first.entry.0.now (view first.entry.1) no_members)))) }
{
    let mut members = Map::new(alloc);
    put(&mut members, alloc, first.0, first.1)?;
    put(&mut members, alloc, second.0, second.1)?;
    put(&mut members, alloc, third.0, third.1)?;
    Ok(Value::Object(members))
}
