//! Which rows of bags need no further look.

ghost use Rattle.std.specs.Prelude.{◌≡◌, ◌+◌, ◌<◌, ◌≤◌, ◌^◌, ◌*◌, true, IsOk, IfOk, ◌++◌, ◌∷◌, ℕ, [], drop, length, get_or};
ghost use Rattle.res_value.specs.MapRows.{map_rows_in};
ghost use Rattle.res_value.specs.Layout.{row_size};
ghost use Rattle.type_entries.specs.WrongSizes.{is_wrong, CountWrong};

use res_value::{MapRows, ROW_SIZE};
use std::alloc::{AllocError, Global};

/// What opening remembers of the rows of bags of a type. Entries can share bags, or have bags that overlap.
/// Once as many rows were looked at as the type has room for, all its rows are counted, and each further bag
/// is compared with the counts. So the check takes time in proportion to the type's bytes.
#[derive(Drop)]
pub(crate) struct BagChecks<'a> {
    whole: &'a [u8],
    /// How many rows may still be looked at one by one.
    left: usize,
    /// For each place: how many rows have a wrong size among those that end there or any number of whole rows
    /// before it. Empty until it is needed.
    counts: Vec<u32>,
    ghost small: { length whole.now < 2 ^ 32 },
    ghost counted: { CountWrong whole.now counts.items },
}

impl<'a> BagChecks<'a> {
    pub fn new(alloc: Global, whole: &'a [u8]) -> Self
        requires { length whole.now < 2 ^ 32 }
        ensures { result.whole.now ≡ whole.now }
    {
        BagChecks {
            whole,
            left: whole.len() / ROW_SIZE,
            counts: Vec::new(alloc),
        }
    }

    /// Whether the rows that may be looked at one by one are spent, and nothing is counted yet.
    pub fn need_counts(&self) -> bool {
        self.left == 0 && self.counts.is_empty()
    }

    /// Counts the wrong rows, where the counts are needed. Nothing else of the checks takes memory.
    pub fn make_ready(&mut self, alloc: Global) -> Result<(), AllocError>
        ensures { self.new.whole.now ≡ self.old.whole.now }
    {
        if self.need_counts() {
            self.counts = wrong_counts(alloc, self.whole)?;
        }
        Ok(())
    }

    /// Whether so many rows at a place are known to be right. Where this is not known they have to be looked at.
    pub fn are_known(&mut self, place: usize, count: u32) -> bool
        requires { place ≤ length self.old.whole.now }
        ensures same { self.new.whole.now ≡ self.old.whole.now }
        ensures known { result ≡ true → IsOk (map_rows_in count (drop place self.old.whole.now)) }
    {
        let count = count as usize;
        if self.counts.is_empty() {
            self.left = self.left.saturating_sub(count);
            return false;
        }
        self.whole.len() - place >= ROW_SIZE * count && self.are_right(place, count)
    }

    // Whether none of these rows is wrong: as many wrong rows are counted up to their end as up to their start.
    fn are_right(&self, place: usize, count: usize) -> bool
        requires { place + row_size * count ≤ length self.now.whole.now }
        ensures { result ≡ true → IsOk (map_rows_in count (drop place self.now.whole.now)) }
    {
        let behind = place + ROW_SIZE * count;
        match (self.counts.get(place), self.counts.get(behind)) {
            (Some(before), Some(after)) => *before == *after,
            _ => false,
        }
    }
}

// The counts for each place.
fn wrong_counts(alloc: Global, whole: &[u8]) -> Result<Vec<u32>, AllocError>
    requires { length whole.now < 2 ^ 32 }
    ensures { IfOk result (λ counts. CountWrong whole.now counts.items) }
{
    let places = whole.len() + 1;
    let mut counts = Vec::with_capacity(alloc, places)?;
    for place in 0..places {
        let count = count_at(whole, &counts, place);
        counts.push(count)?;
    }
    Ok(counts)
}

// The count for the place behind those that were counted.
fn count_at(whole: &[u8], counts: &[u32], place: usize) -> u32
    requires here { length counts.now ≡ place }
    requires within { place ≤ length whole.now }
    requires small { length whole.now < 2 ^ 32 }
    requires few { (before : ℕ) → get_or counts.now before 0 ≤ before }
    ensures counted { CountWrong whole.now counts.now → CountWrong whole.now (counts.now ++ result ∷ []) }
    ensures few { result ≤ place }
{
    if place < ROW_SIZE {
        return 0;
    }
    let before = place - ROW_SIZE;
    if is_wrong(whole, before) {
        counts[before] + 1
    } else {
        counts[before]
    }
}

// Whether a row at a place has a value of another size than a value has.
#[tactic(auto, unfolding(crate::specs::WrongSizes::is_wrong))]
fn is_wrong(whole: &[u8], place: usize) -> bool
    requires { place + row_size ≤ length whole.now }
    ensures { result ≡ is_wrong whole.now place }
{
    MapRows::has_wrong_size(&whole[place..], 0)
}
