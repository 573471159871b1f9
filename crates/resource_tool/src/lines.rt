//! What two stacks say differently, written.

ghost use Rattle.std.specs.Prelude.{◌≡◌, ◌++◌, ◌∷◌, [], codes, map, Ok};
ghost use Rattle.std.specs.Fmt.{decimal};
ghost use Rattle.std.specs.List.{flat_map};
ghost use Rattle.contract_words.specs.Writes.{Writes};
ghost use Rattle.command_base.specs.Output.{Prints};
ghost use Rattle.command_base.specs.declared.status.Status.TheVariants.{Negative};
ghost use Rattle.stack_diff.specs.names.Label.{label_of};
ghost use Rattle.stack_diff.specs.names.Pairs.{pair_of};
ghost use Rattle.stack_diff.specs.Stacks.{stacks_of};
ghost use Rattle.resource_tool.specs.Judged.{told_of};
ghost use Rattle.resource_tool.specs.DiffOutput.{node_limit_line};
ghost use Rattle.resource_tool.specs.DiffLines.{block_lines, told_lines, label_lines, says_same, same_count, some_differ, counts_line, diff_lines};

use crate::stack_counts::StackCounts;
use crate::told::Told;
use command_base::{LocaleRule, Status, ToolFault};
use resource_text::LineForm;
use stack_diff::{Label, NamePair, PackageNames, Stacks};
use std::io::{self, Write};

/// Writes the lines of labels, of which this is told, and those of the stacks.
pub(crate) fn write_lines<W: Write + Drop>(
    rule: LocaleRule,
    stacks: Stacks<'_, '_>,
    pairs: &[NamePair<'_>],
    told: &[Told],
    out: &mut W,
) -> io::Result<()>
    ensures { Writes W.contents out.old out.new result (diff_lines rule (stacks_of stacks.entry) (map pair_of pairs.now) (map told_of told.now)) }
{
    let old = StackCounts::of(stacks.old_stack(), rule);
    let new = StackCounts::of(stacks.new_stack(), rule);
    write_labels(b"changed ", stacks.packages(), pairs, told, out)?;
    write_counts(
        b"warning shared-names",
        old.shared_names,
        new.shared_names,
        out,
    )?;
    write_counts(b"set-aside", old.set_aside, new.set_aside, out)?;
    write_count(b"same", same_count(told) as u128, out)
}

// ---- labels

/// Writes the lines of labels, with these words before each that has blocks.
#[tactic(auto, unfolding(crate::specs::DiffLines::label_lines), using(contract_words::proofs::TextSteps::puts))]
pub(crate) fn write_labels<W: Write + Drop>(
    before: &[u8],
    packages: &PackageNames<'_>,
    pairs: &[NamePair<'_>],
    told: &[Told],
    out: &mut W,
) -> io::Result<()>
    ensures { Writes W.contents out.old out.new result (label_lines before.now packages.now (map pair_of pairs.now) (map told_of told.now)) }
{
    for (place, pair) in pairs.iter().enumerate() {
        let Some(one) = told.get(place) else {
            return Ok(());
        };
        write_told(before, packages, &pair.label, one, out)?;
    }
    Ok(())
}

#[tactic(auto, unfolding(crate::specs::DiffLines::told_lines, crate::specs::DiffLines::block_lines, crate::specs::NameLines::added_line, crate::specs::NameLines::removed_line))]
fn write_told<W: Write + Drop>(
    before: &[u8],
    packages: &PackageNames<'_>,
    label: &Label<'_>,
    told: &Told,
    out: &mut W,
) -> io::Result<()>
    ensures { Writes W.contents out.old out.new result (told_lines before.now packages.now (label_of label.now) (told_of told.now)) }
{
    match told {
        Told::Removed => write_block(b"removed ", packages, label, b"\n", out),
        Told::Added => write_block(b"added ", packages, label, b"\n", out),
        Told::Same => Ok(()),
        Told::Changed(blocks) => write_blocks(before, packages, label, blocks, out),
    }
}

#[tactic(auto, using(contract_words::proofs::TextSteps::puts_slice))]
fn write_blocks<W: Write + Drop>(
    before: &[u8],
    packages: &PackageNames<'_>,
    label: &Label<'_>,
    blocks: &[Vec<u8>],
    out: &mut W,
) -> io::Result<()>
    ensures { Writes W.contents out.old out.new result (flat_map (block_lines before.now packages.now (label_of label.now)) (map (λ block. block.items) blocks.now)) }
{
    for block in blocks {
        write_block(before, packages, label, block, out)?;
    }
    Ok(())
}

#[tactic(auto, unfolding(crate::specs::DiffLines::block_lines))]
fn write_block<W: Write + Drop>(
    before: &[u8],
    packages: &PackageNames<'_>,
    label: &Label<'_>,
    block: &[u8],
    out: &mut W,
) -> io::Result<()>
    ensures { Writes W.contents out.old out.new result (block_lines before.now packages.now (label_of label.now) block.now) }
{
    out.write_all(before)?;
    packages.write_label(label, out)?;
    out.write_all(block)
}

// ---- counts

// Writes a count of either stack, if one of them is not 0.
#[tactic(auto, unfolding(crate::specs::DiffLines::counts_line))]
fn write_counts<W: Write + Drop>(words: &[u8], old: u128, new: u128, out: &mut W) -> io::Result<()>
    ensures { Writes W.contents out.old out.new result (counts_line words.now old new) }
{
    if old == 0 && new == 0 {
        return Ok(());
    }
    out.write_all(words)?;
    writeln!(out, " {old} {new}")
}

/// Writes a count, behind words.
pub(crate) fn write_count<W: Write + Drop>(words: &[u8], count: u128, out: &mut W) -> io::Result<()>
    ensures { Writes W.contents out.old out.new result (words.now ++ codes " " ++ decimal count ++ 10 ∷ []) }
{
    out.write_all(words)?;
    writeln!(out, " {count}")
}

// ---- labels that say the same

/// How many there are.
pub(crate) fn same_count(told: &[Told]) -> usize
    ensures { result ≡ same_count (map told_of told.now) }
{
    let mut count: usize = 0;
    for one in told {
        if says_same(one) {
            count += 1;
        }
    }
    count
}

/// Whether some label says something else, or stands in one stack alone.
pub(crate) fn some_differ(told: &[Told]) -> bool
    ensures { result ≡ some_differ (map told_of told.now) }
{
    same_count(told) < told.len()
}

fn says_same(told: &Told) -> bool
    ensures { result ≡ says_same (told_of told.now) }
{
    matches!(told, Told::Same)
}

// ---- the limit

/// Prints one line in place of all, where trees have more nodes than the limit.
pub(crate) fn print_node_limit<W: Write + Drop>(
    form: LineForm,
    out: &mut W,
) -> Result<Status, ToolFault>
    ensures { Prints W.contents out.old out.new result (Ok (record { status = Negative; text = node_limit_line form })) }
{
    out.write_all(node_limit_line(form))?;
    Ok(Status::Negative)
}

fn node_limit_line(form: LineForm) -> &'static [u8]
    ensures { result.now ≡ node_limit_line form }
{
    match form {
        LineForm::Text(_) => b"node limit\n",
        LineForm::Json => b"{\"line\":\"node limit\"}\n",
    }
}
