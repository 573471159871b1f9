//! How two resources differ in what they say.

ghost use Rattle.std.specs.Prelude.{◌≡◌, ◌++◌, map, None, Some, IfOk, OnOk, if◌then◌else◌};
ghost use Rattle.std.specs.Option.{option_map, option_to_list};
ghost use Rattle.answer_text.specs.config_record.DeviceSeen.{device_numbers};
ghost use Rattle.answer_text.specs.ContentAt.{end_content, content_at};
ghost use Rattle.answer_text.specs.ContentSeen.{row_content_of, content_of};
ghost use Rattle.stack_diff.specs.Difference.{changed_row, row_differences, of_rows, ContentsDiffer, say_same, difference};
ghost use Rattle.stack_diff.specs.DifferenceSeen.{row_difference_of, changed_rows, difference_of};
ghost use Rattle.stack_diff.specs.declared.difference.RowDifference.TheVariants.{Removed, Added};

use answer_text::{
    Content, Device, End, ResId, RowContent, RowKey, ValueContent, content_of_end, end_of,
    is_same_label,
};
use names::NamedStack;
use std::alloc::{AllocError, Global};
use std::cmp::Ordering;
use std::collections::VecDeque;

/// How what a resource says after differs from what it says before.
#[derive(PartialEq, Eq, PartialOrd, Ord, Drop)]
pub enum Difference<'a> {
    /// The rows in which two bags differ, in the order of their keys.
    Rows(Vec<RowDifference<'a>>),
    /// What is said before and after, where one of the two is no bag.
    Contents {
        before: Content<'a>,
        after: Content<'a>,
    },
    /// All that is said, where it is compared with nothing.
    FromNothing(Content<'a>),
}

/// A row of one bag alone, or two rows of one key whose values a device does not read alike.
#[derive(PartialEq, Eq, PartialOrd, Ord, Drop)]
pub enum RowDifference<'a> {
    Removed(RowContent<'a>),
    Added(RowContent<'a>),
    Changed {
        key: RowKey<'a>,
        before: ValueContent<'a>,
        after: ValueContent<'a>,
    },
}

impl<'a> Difference<'a> {
    ghost use Rattle.std.specs.Prelude.{◌≡◌, ◌≢◌, MatchBool};
    ghost use Rattle.stack_diff.specs.DifferenceSeen.{difference_of};

    /// Whether both tell the same, which is what `==` says.
    #[tactic(auto, using(crate::proofs::DifferenceEquality::told_differences))]
    pub fn tells_same(&self, other: &Difference<'a>) -> bool
        ensures { MatchBool result
            (difference_of self.now ≡ difference_of other.now)
            (difference_of self.now ≢ difference_of other.now) }
    {
        self == other
    }
}

/// How what one id says at a device in a stack differs from what another says there in another stack; None where the
/// device reads both alike. Of two bags only the rows that differ are kept.
///
/// ```text
/// let change = difference_at(alloc, &old, old_id, &new, new_id, &phone)?; // dimension 4/2^0 dp -> dimension 3/2^0 dp
/// ```
#[tactic(auto, unfolding(answer_text::specs::ContentAt::content_at))]
pub fn difference_at<'a>(
    alloc: Global,
    old: &NamedStack<'_, 'a>,
    old_id: ResId,
    new: &NamedStack<'_, 'a>,
    new_id: ResId,
    device: &Device,
) -> Result<Option<Difference<'a>>, AllocError>
    ensures { IfOk result (λ it. option_map difference_of it ≡ difference (content_at old.now old_id.0 (device_numbers device.now)) (content_at new.now new_id.0 (device_numbers device.now))) }
{
    let old_end = end_of(old, old_id, device);
    let new_end = end_of(new, new_id, device);
    difference_of_ends(alloc, old, old_end, new, new_end, device)
}

/// The same of two ends, to which two ids lead at this device: for whoever has followed their references.
pub fn difference_of_ends<'a>(
    alloc: Global,
    old: &NamedStack<'_, 'a>,
    old_end: End,
    new: &NamedStack<'_, 'a>,
    new_end: End,
    device: &Device,
) -> Result<Option<Difference<'a>>, AllocError>
    ensures { IfOk result (λ it. option_map difference_of it ≡ difference (end_content old.now old_end (device_numbers device.now)) (end_content new.now new_end (device_numbers device.now))) }
{
    let before = content_of_end(alloc, old, old_end, device)?;
    match content_of_end(alloc, new, new_end, device) {
        Ok(after) => difference_between(alloc, before, after),
        Err(error) => {
            // by a call, so that it is not taken apart here
            drop(before);
            Err(error)
        }
    }
}

#[tactic(auto, unfolding(crate::specs::Difference::difference))]
fn difference_between<'a>(
    alloc: Global,
    before: Content<'a>,
    after: Content<'a>,
) -> Result<Option<Difference<'a>>, AllocError>
    ensures { IfOk result (λ it. option_map difference_of it ≡ difference (content_of before.entry) (content_of after.entry)) }
{
    match (before, after) {
        (Content::Bag(before), Content::Bag(after)) => {
            Ok(of_rows(row_differences(alloc, before, after)?))
        }
        (before, after) => Ok(of_contents(before, after)),
    }
}

// The rows that differ, if there are some.
fn of_rows<'a>(rows: Vec<RowDifference<'a>>) -> Option<Difference<'a>>
    ensures { option_map difference_of result ≡ of_rows (map row_difference_of rows.entry.items) }
{
    if rows.is_empty() {
        None
    } else {
        Some(Difference::Rows(rows))
    }
}

// Both contents, of which one is no bag, if they are not read alike.
fn of_contents<'a>(before: Content<'a>, after: Content<'a>) -> Option<Difference<'a>>
    ensures { option_map difference_of result ≡ (if say_same (content_of before.entry) (content_of after.entry) then None else Some (ContentsDiffer (content_of before.entry) (content_of after.entry))) }
{
    let say_same = say_same(&before, &after);
    (!say_same).then_some(Difference::Contents { before, after })
}

fn say_same(before: &Content<'_>, after: &Content<'_>) -> bool
    ensures { result ≡ say_same (content_of before.now) (content_of after.now) }
{
    match (before, after) {
        (Content::Value(value), Content::Value(other)) => value.is_alike(other),
        (Content::Absent(label), Content::Absent(other)) => is_same_label(label, other),
        (Content::TooManyReferences(label), Content::TooManyReferences(other)) => {
            is_same_label(label, other)
        }
        (Content::TooManyParents(label), Content::TooManyParents(other)) => {
            is_same_label(label, other)
        }
        _ => false,
    }
}

// The rows that differ, of bags that have their rows in the order of keys.
fn row_differences<'a>(
    alloc: Global,
    before: Vec<RowContent<'a>>,
    after: Vec<RowContent<'a>>,
) -> Result<Vec<RowDifference<'a>>, AllocError>
    ensures { IfOk result (λ rows. map row_difference_of rows.items ≡ row_differences (map row_content_of before.entry.items) (map row_content_of after.entry.items)) }
{
    let mut rows = Vec::new(alloc);
    let mut before = VecDeque::from(before);
    let mut after = VecDeque::from(after);
    push_differences(&mut rows, &mut before, &mut after)?;
    Ok(rows)
}

// The same, where both are lent: so they are dropped in one place.
fn push_differences<'a>(
    rows: &mut Vec<RowDifference<'a>>,
    before: &mut VecDeque<RowContent<'a>>,
    after: &mut VecDeque<RowContent<'a>>,
) -> Result<(), AllocError>
    ensures { OnOk result (map row_difference_of rows.new.items ≡ map row_difference_of rows.old.items ++ row_differences (map row_content_of before.old.items) (map row_content_of after.old.items)) }
{
    'rows: loop {
        match (before.front(), after.front()) {
            (None, None) => return Ok(()),
            (Some(_), None) => push_removed(rows, before.pop_front())?,
            (None, Some(_)) => push_added(rows, after.pop_front())?,
            (Some(row), Some(other)) => match row.key.cmp(&other.key) {
                Ordering::Less => push_removed(rows, before.pop_front())?,
                Ordering::Greater => push_added(rows, after.pop_front())?,
                Ordering::Equal => push_changed(rows, before.pop_front().zip(after.pop_front()))?,
            },
        }
    }
}

// A row that the bag after does not have.
fn push_removed<'a>(
    rows: &mut Vec<RowDifference<'a>>,
    row: Option<RowContent<'a>>,
) -> Result<(), AllocError>
    ensures { OnOk result (rows.new.items ≡ rows.old.items ++ map Removed (option_to_list row.entry)) }
{
    if let Some(row) = row {
        rows.push(RowDifference::Removed(row))?;
    }
    Ok(())
}

// A row that the bag before does not have.
fn push_added<'a>(
    rows: &mut Vec<RowDifference<'a>>,
    row: Option<RowContent<'a>>,
) -> Result<(), AllocError>
    ensures { OnOk result (rows.new.items ≡ rows.old.items ++ map Added (option_to_list row.entry)) }
{
    if let Some(row) = row {
        rows.push(RowDifference::Added(row))?;
    }
    Ok(())
}

// Two rows of one key, if their values are not read alike.
fn push_changed<'a>(
    rows: &mut Vec<RowDifference<'a>>,
    both: Option<(RowContent<'a>, RowContent<'a>)>,
) -> Result<(), AllocError>
    ensures { OnOk result (map row_difference_of rows.new.items ≡ map row_difference_of rows.old.items ++ changed_rows both.entry) }
{
    if let Some((before, after)) = both {
        if let Some(row) = changed_row(before, after) {
            rows.push(row)?;
        }
    }
    Ok(())
}

fn changed_row<'a>(before: RowContent<'a>, after: RowContent<'a>) -> Option<RowDifference<'a>>
    ensures { map row_difference_of (option_to_list result) ≡ changed_row (row_content_of before.entry) (row_content_of after.entry) }
{
    let are_alike = before.value.is_alike(&after.value);
    (!are_alike).then_some(RowDifference::Changed {
        key: before.key,
        before: before.value,
        after: after.value,
    })
}
