//! What resources say, written.

ghost use Rattle.std.specs.Prelude.{map};
ghost use Rattle.contract_words.specs.Writes.{Writes};
ghost use Rattle.stack_diff.specs.names.Pairs.{pair_of};
ghost use Rattle.stack_diff.specs.Stacks.{stacks_of};
ghost use Rattle.resource_tool.specs.Judged.{told_of};
ghost use Rattle.resource_tool.specs.ValuesOutput.{count_line, values_lines};

use crate::lines::{write_count, write_labels};
use crate::stack_counts::StackCounts;
use crate::told::Told;
use command_base::LocaleRule;
use stack_diff::{NamePair, Stacks};
use std::io::{self, Write};

/// Writes what is told of labels, and the lines of their stack, which is the new one.
pub(crate) fn write_value_lines<W: Write + Drop>(
    rule: LocaleRule,
    stacks: Stacks<'_, '_>,
    pairs: &[NamePair<'_>],
    told: &[Told],
    out: &mut W,
) -> io::Result<()>
    ensures { Writes W.contents out.old out.new result (values_lines rule (stacks_of stacks.entry) (map pair_of pairs.now) (map told_of told.now)) }
{
    let counts = StackCounts::of(stacks.new_stack(), rule);
    write_labels(b"", stacks.packages(), pairs, told, out)?;
    write_count_unless_0(b"warning shared-names", counts.shared_names, out)?;
    write_count_unless_0(b"set-aside", counts.set_aside, out)?;
    write_count(b"resources", pairs.len() as u128, out)
}

// Writes a count, if it is not 0.
#[tactic(auto, unfolding(crate::specs::ValuesOutput::count_line))]
fn write_count_unless_0<W: Write + Drop>(words: &[u8], count: u128, out: &mut W) -> io::Result<()>
    ensures { Writes W.contents out.old out.new result (count_line words.now count) }
{
    if count == 0 {
        return Ok(());
    }
    write_count(words, count, out)
}
