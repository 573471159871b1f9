//! What is counted of a stack.

ghost use Rattle.std.specs.Prelude.{◌≡◌, length};
ghost use Rattle.stack_diff.specs.names.Shared.{shared_ids};

use command_base::{LocaleRule, rows_set_aside};
use stack_diff::NamedStack;

/// What is told of a stack by its number alone.
#[derive(Clone, Copy)]
pub(crate) struct StackCounts {
    /// The ids that have a name that stands for another id.
    pub shared_names: u128,
    /// The rows that are set aside, by the rule that compares locales.
    pub set_aside: u128,
}

impl StackCounts {
    ghost use Rattle.resource_tool.specs.StackCounts.{counts_of};

    pub fn of(stack: &NamedStack<'_, '_>, rule: LocaleRule) -> StackCounts
        ensures { result ≡ counts_of rule stack.now }
    {
        StackCounts {
            shared_names: shared_count(stack) as u128,
            set_aside: rows_set_aside(stack.stack(), rule),
        }
    }
}

fn shared_count(stack: &NamedStack<'_, '_>) -> usize
    ensures { result ≡ length (shared_ids stack.now) }
{
    match stack.shared_names() {
        Some(shared) => shared.count,
        None => 0,
    }
}
