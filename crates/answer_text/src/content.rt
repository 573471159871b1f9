//! What a resource says.

use names::Label;
use std::alloc::Global;
use std::borrow::CowStr;

/// What a resource says, apart from ids and indexes.
#[derive(PartialEq, Eq, PartialOrd, Ord, Drop)]
pub enum Content<'a> {
    /// A value.
    Value(ValueContent<'a>),
    /// The rows of a bag, those that it inherits among them.
    Bag(Vec<RowContent<'a>>),
    /// The id that selects nothing: the last one, where references lead there.
    Absent(Label<'a>),
    /// There is a reference too many, behind this id.
    TooManyReferences(Label<'a>),
    /// There is a bag with a parent too many, which this id selects.
    TooManyParents(Label<'a>),
}

/// A row of a bag.
#[derive(PartialEq, Eq, PartialOrd, Ord, Drop)]
pub struct RowContent<'a> {
    pub key: RowKey<'a>,
    /// What its value says.
    pub value: ValueContent<'a>,
}

/// What tells a row from the others of its bag. Keys are in order: places, then quantities, then labels.
#[derive(PartialEq, Eq, PartialOrd, Ord, Drop)]
pub enum RowKey<'a> {
    /// The place in an array, from 0 on.
    Place(usize),
    /// The quantity in plurals.
    Quantity(Quantity),
    /// The attribute, or what else the row's id is called.
    Called(Label<'a>),
}

/// A quantity of plurals, in the order of their ids (AOSP: `ResTable_map::ATTR_OTHER` to `ATTR_MANY`).
#[derive(Clone, Copy, PartialEq, Eq, PartialOrd, Ord)]
pub enum Quantity {
    Other,
    Zero,
    One,
    Two,
    Few,
    Many,
}

/// What a value says.
#[derive(PartialEq, Eq, PartialOrd, Ord, Drop)]
pub enum ValueContent<'a> {
    /// A string, by its text, which is lent by the table where it stands there as UTF-8.
    String(CowStr<'a, Global>),
    /// A string that is no text, as it is shown.
    Garbled(Vec<u8>),
    /// A string that cannot be read.
    Broken(BrokenString),
    /// A resource.
    Reference(Label<'a>),
    /// An attribute, whose value a theme gives.
    Attribute(Label<'a>),
    /// Any other value, by itself.
    Other { kind: u8, word: u32 },
}

/// Why a string cannot be read, and its index.
#[derive(Clone, Copy, PartialEq, Eq, PartialOrd, Ord)]
pub enum BrokenString {
    /// The pool has fewer strings, or there is no pool.
    NoSuch(u32),
    /// A length, the text, or the zero that closes it does not fit.
    Cut(u32),
    /// The text is not closed by a zero.
    NotEnded(u32),
}
