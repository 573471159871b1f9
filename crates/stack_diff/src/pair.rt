//! The resources that are compared.

ghost use Rattle.std.specs.Prelude.{◌≡◌, true};

use crate::compared_with::ComparedWith;
use answer_text::ResId;
use names::NamedStack;

/// A resource of a stack.
#[derive(Clone, Copy)]
pub(crate) struct Resource<'s, 'a> {
    pub(crate) stack: &'s NamedStack<'s, 'a>,
    pub(crate) id: ResId,
}

/// A resource of the stack before, and one of the stack after; and with what the second is compared.
#[derive(Clone, Copy)]
pub(crate) struct Pair<'s, 'a> {
    pub(crate) before: Resource<'s, 'a>,
    pub(crate) after: Resource<'s, 'a>,
    pub(crate) compared: ComparedWith,
    /// Whether both are one resource of one stack, which is compared with nothing: then one trace tells both.
    pub(crate) is_alone: bool,
    ghost alone: { is_alone ≡ true → (after.stack.now ≡ before.stack.now) × (after.id.0 ≡ before.id.0) },
}
