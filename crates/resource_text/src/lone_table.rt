//! A table as the only layer of a stack.

ghost use Rattle.std.specs.Prelude.{◌≡◌, ◌∷◌, [], length, slice_get, IfOk};
ghost use Rattle.std.specs.Option.{option_map};

use answer_text::{Stack, Table};
use std::alloc::{AllocError, Global};

/// A stack with this table alone.
pub(crate) fn stack_of(alloc: Global, table: Table<'_>) -> Result<Stack<'_>, AllocError>
    ensures { IfOk result (λ stack. stack ≡ record { table = table.entry; map = None } ∷ []) }
{
    let mut stack = Stack::new(alloc);
    match stack.push_base(table) {
        Ok(()) => Ok(stack),
        // An empty stack has room for a layer, so memory ran out.
        Err(_) => Err(AllocError),
    }
}

/// The table of such a stack.
pub(crate) fn lone_table<'s, 'a>(stack: &'s Stack<'a>) -> &'s Table<'a>
    requires { length stack.now ≡ 1 }
    ensures { option_map (λ layer. layer.table) (slice_get stack.now 0) ≡ Some result.now }
{
    let Some(table) = stack.layer_table(0) else {
        unreachable!()
    };
    table
}
