//! The stacks that are compared.

ghost use Rattle.std.specs.Prelude.{◌≡◌, true};
ghost use Rattle.stack_diff.specs.ComparedWith.{with_no_other};

use crate::compared_with::ComparedWith;
use answer_text::ResId;
use names::{NamedStack, PackageNames};

/// Two stacks with their names, and the packages by which resources are told; or one that is compared with itself, or with
/// nothing.
#[derive(Clone, Copy)]
pub struct Stacks<'s, 'a> {
    pub(crate) old: &'s NamedStack<'s, 'a>,
    pub(crate) new: &'s NamedStack<'s, 'a>,
    pub(crate) packages: &'s PackageNames<'a>,
    pub(crate) compared: ComparedWith,
    ghost one: { with_no_other compared ≡ true → new.now ≡ old.now },
}

impl<'s, 'a> Stacks<'s, 'a> {
    ghost use Rattle.std.specs.Prelude.{◌≡◌};
    ghost use Rattle.stack_diff.specs.Stacks.{one_stack, two_stacks, beside_nothing, stacks_of, is_itself, is_alone};

    /// Two stacks.
    pub fn two(
        old: &'s NamedStack<'s, 'a>,
        new: &'s NamedStack<'s, 'a>,
        packages: &'s PackageNames<'a>,
    ) -> Stacks<'s, 'a>
        ensures { stacks_of result ≡ two_stacks old.now new.now packages.now }
    {
        Stacks {
            old,
            new,
            packages,
            compared: ComparedWith::Other,
        }
    }

    /// One stack beside itself. A resource needs no look-up then that is compared with itself.
    pub fn one(stack: &'s NamedStack<'s, 'a>, packages: &'s PackageNames<'a>) -> Stacks<'s, 'a>
        ensures { stacks_of result ≡ one_stack stack.now packages.now }
    {
        Stacks {
            old: stack,
            new: stack,
            packages,
            compared: ComparedWith::Itself,
        }
    }

    /// One stack beside nothing: of a resource all is told that it says.
    pub fn beside_nothing(
        stack: &'s NamedStack<'s, 'a>,
        packages: &'s PackageNames<'a>,
    ) -> Stacks<'s, 'a>
        ensures { stacks_of result ≡ beside_nothing stack.now packages.now }
    {
        Stacks {
            old: stack,
            new: stack,
            packages,
            compared: ComparedWith::Nothing,
        }
    }

    /// The stack before.
    pub fn old_stack(&self) -> &'s NamedStack<'s, 'a>
        ensures { result.now ≡ (stacks_of self.now).old }
    {
        self.old
    }

    /// The stack after.
    pub fn new_stack(&self) -> &'s NamedStack<'s, 'a>
        ensures { result.now ≡ (stacks_of self.now).new }
    {
        self.new
    }

    /// The packages by which resources are told.
    pub fn packages(&self) -> &'s PackageNames<'a>
        ensures { result.now ≡ (stacks_of self.now).packages }
    {
        self.packages
    }

    /// Whether both ids are one resource of one stack.
    pub(crate) fn is_itself(&self, old: ResId, new: ResId) -> bool
        ensures { result ≡ is_itself (stacks_of self.now) old new }
    {
        self.compared.is_itself() && old.0 == new.0
    }

    /// Whether both ids are one resource of a stack that is compared with nothing.
    pub(crate) fn is_alone(&self, old: ResId, new: ResId) -> bool
        ensures { result ≡ is_alone (stacks_of self.now) old new }
    {
        self.compared.is_nothing() && old.0 == new.0
    }
}
