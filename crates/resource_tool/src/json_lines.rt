//! What two stacks say differently, or one says, written as lines of JSON.

ghost use Rattle.std.specs.Prelude.{◌≡◌, map, IfOk};
ghost use Rattle.std.specs.List.{flat_map};
ghost use Rattle.contract_words.specs.Writes.{Writes};
ghost use Rattle.stack_diff.specs.names.Pairs.{pair_of};
ghost use Rattle.stack_diff.specs.Stacks.{stacks_of};
ghost use Rattle.resource_tool.specs.JsonLines.{name_json, name_line, said_line, lines_of_name, lines_of_names, counts_json, count_json, count_json_unless_0, diff_json, values_json};
ghost use Rattle.resource_tool.specs.Judged.{told_of};

use crate::lines::same_count;
use crate::stack_counts::StackCounts;
use crate::told::Told;
use command_base::LocaleRule;
use resource_text::name_json;
use stack_diff::{NamePair, PackageNames, Stacks};
use std::alloc::{AllocError, Global};
use std::io::{self, Write};

// ---- two stacks

/// Writes the lines of labels, whose names as JSON are these and of which this is told, and those of the stacks.
pub(crate) fn write_diff_json<W: Write + Drop>(
    rule: LocaleRule,
    stacks: Stacks<'_, '_>,
    pairs: &[NamePair<'_>],
    names: &[Vec<u8>],
    told: &[Told],
    out: &mut W,
) -> io::Result<()>
    requires { map (λ name. name.items) names.now ≡ map (name_json (stacks_of stacks).packages) (map pair_of pairs.now) }
    ensures { Writes W.contents out.old out.new result (diff_json rule (stacks_of stacks.entry) (map pair_of pairs.now) (map told_of told.now)) }
{
    let old = StackCounts::of(stacks.old_stack(), rule);
    let new = StackCounts::of(stacks.new_stack(), rule);
    write_names(b"{\"line\":\"changed\",\"name\":", names, told, out)?;
    let (before, after) = (old.shared_names, new.shared_names);
    write_counts(b"{\"line\":\"shared-names\",\"new\":", before, after, out)?;
    let (before, after) = (old.set_aside, new.set_aside);
    write_counts(b"{\"line\":\"set-aside\",\"new\":", before, after, out)?;
    write_count(same_count(told) as u128, b",\"line\":\"same\"}\n", out)
}

// ---- one stack

/// Writes what is told of labels, whose names as JSON are these, and the lines of their stack, which is the new one.
pub(crate) fn write_values_json<W: Write + Drop>(
    rule: LocaleRule,
    stacks: Stacks<'_, '_>,
    pairs: &[NamePair<'_>],
    names: &[Vec<u8>],
    told: &[Told],
    out: &mut W,
) -> io::Result<()>
    requires { map (λ name. name.items) names.now ≡ map (name_json (stacks_of stacks).packages) (map pair_of pairs.now) }
    ensures { Writes W.contents out.old out.new result (values_json rule (stacks_of stacks.entry) (map pair_of pairs.now) (map told_of told.now)) }
{
    let counts = StackCounts::of(stacks.new_stack(), rule);
    write_names(b"{\"line\":\"value\",\"name\":", names, told, out)?;
    write_count_unless_0(counts.shared_names, b",\"line\":\"shared-names\"}\n", out)?;
    write_count_unless_0(counts.set_aside, b",\"line\":\"set-aside\"}\n", out)?;
    write_count(pairs.len() as u128, b",\"line\":\"resources\"}\n", out)
}

// ---- names

/// The names of labels, each as JSON.
pub(crate) fn names_json(
    alloc: Global,
    packages: &PackageNames<'_>,
    pairs: &[NamePair<'_>],
) -> Result<Vec<Vec<u8>>, AllocError>
    ensures { IfOk result (λ names. map (λ name. name.items) names.items ≡ map (name_json packages.now) (map pair_of pairs.now)) }
{
    let mut names = Vec::with_capacity(alloc, pairs.len())?;
    for pair in pairs {
        let name = name_json(alloc, packages, &pair.label)?;
        names.push(name)?;
    }
    Ok(names)
}

// Writes the lines of names, of which those begin so that tell what a name says.
#[tactic(auto, unfolding(crate::specs::JsonLines::lines_of_names), using(contract_words::proofs::TextSteps::puts))]
fn write_names<W: Write + Drop>(
    begin: &[u8],
    names: &[Vec<u8>],
    told: &[Told],
    out: &mut W,
) -> io::Result<()>
    ensures { Writes W.contents out.old out.new result (lines_of_names begin.now (map (λ name. name.items) names.now) (map told_of told.now)) }
{
    for (place, name) in names.iter().enumerate() {
        let Some(one) = told.get(place) else {
            return Ok(());
        };
        write_told(begin, name, one, out)?;
    }
    Ok(())
}

#[tactic(auto, unfolding(crate::specs::JsonLines::lines_of_name))]
fn write_told<W: Write + Drop>(
    begin: &[u8],
    name: &[u8],
    told: &Told,
    out: &mut W,
) -> io::Result<()>
    ensures { Writes W.contents out.old out.new result (lines_of_name begin.now name.now (told_of told.now)) }
{
    match told {
        Told::Removed => write_name(b"{\"line\":\"removed\",\"name\":", name, out),
        Told::Added => write_name(b"{\"line\":\"added\",\"name\":", name, out),
        Told::Same => Ok(()),
        Told::Changed(blocks) => write_all_said(begin, name, blocks, out),
    }
}

fn write_name<W: Write + Drop>(begin: &[u8], name: &[u8], out: &mut W) -> io::Result<()>
    ensures { Writes W.contents out.old out.new result (name_line begin.now name.now) }
{
    out.write_all(begin)?;
    out.write_all(name)?;
    out.write_all(b"}\n")
}

#[tactic(auto, using(contract_words::proofs::TextSteps::puts_slice))]
fn write_all_said<W: Write + Drop>(
    begin: &[u8],
    name: &[u8],
    blocks: &[Vec<u8>],
    out: &mut W,
) -> io::Result<()>
    ensures { Writes W.contents out.old out.new result (flat_map (said_line begin.now name.now) (map (λ block. block.items) blocks.now)) }
{
    for block in blocks {
        write_said(begin, name, block, out)?;
    }
    Ok(())
}

fn write_said<W: Write + Drop>(
    begin: &[u8],
    name: &[u8],
    said: &[u8],
    out: &mut W,
) -> io::Result<()>
    ensures { Writes W.contents out.old out.new result (said_line begin.now name.now said.now) }
{
    out.write_all(begin)?;
    out.write_all(name)?;
    out.write_all(b",\"says\":")?;
    out.write_all(said)?;
    out.write_all(b"}\n")
}

// ---- counts

// Writes a count of either stack, if one of them is not 0.
#[tactic(auto, unfolding(crate::specs::JsonLines::counts_json))]
fn write_counts<W: Write + Drop>(begin: &[u8], old: u128, new: u128, out: &mut W) -> io::Result<()>
    ensures { Writes W.contents out.old out.new result (counts_json begin.now old new) }
{
    if old == 0 && new == 0 {
        return Ok(());
    }
    out.write_all(begin)?;
    writeln!(out, "{new},\"old\":{old}}}")
}

// Writes a count, if it is not 0.
#[tactic(auto, unfolding(crate::specs::JsonLines::count_json_unless_0))]
fn write_count_unless_0<W: Write + Drop>(count: u128, end: &[u8], out: &mut W) -> io::Result<()>
    ensures { Writes W.contents out.old out.new result (count_json_unless_0 count end.now) }
{
    if count == 0 {
        return Ok(());
    }
    write_count(count, end, out)
}

#[tactic(auto, unfolding(crate::specs::JsonLines::count_json))]
fn write_count<W: Write + Drop>(count: u128, end: &[u8], out: &mut W) -> io::Result<()>
    ensures { Writes W.contents out.old out.new result (count_json count end.now) }
{
    write!(out, "{{\"count\":{count}")?;
    out.write_all(end)
}
