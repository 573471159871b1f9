//! Labels, with what they stand for in two stacks.

ghost use Rattle.std.specs.Prelude.{◌≡◌, [], ◌∷◌, ◌++◌, drop, map, IfOk, OnOk};
ghost use Rattle.names.specs.Label.{label_of};
ghost use Rattle.names.specs.Pairs.{pair_of, name_pairs};
ghost use Rattle.names.specs.Merged.{labelled_of, merged, MergesLabel};
ghost use Rattle.names.specs.Laws.{AreSideBySide};

use crate::label::{Label, copy_label};
use crate::named_stack::{Labelled, NamedStack};
use overlay_map::ResId;
use std::alloc::{AllocError, Global};
use std::cmp::Ordering;

/// The ids that a label stands for: in the old stack alone, in the new one alone, or in both.
#[derive(Clone, Copy)]
pub enum Sides {
    Removed { old: ResId },
    Added { new: ResId },
    Both { old: ResId, new: ResId },
}

/// A label of one or both of two stacks, with what it stands for.
#[derive(Drop)]
pub struct NamePair<'a> {
    pub label: Label<'a>,
    pub sides: Sides,
}

/// All labels of two stacks, in rising order, with what each stands for. It reads no row: it merges the labels that both
/// stacks have noted.
///
/// ```text
/// let pairs = name_pairs(alloc, &old, &new)?;
/// ```
pub fn name_pairs<'a>(
    alloc: Global,
    old: &NamedStack<'_, 'a>,
    new: &NamedStack<'_, 'a>,
) -> Result<Vec<NamePair<'a>>, AllocError>
    ensures pairs { IfOk result (λ pairs. map pair_of pairs.items ≡ name_pairs old.now new.now) }
    ensures side_by_side { IfOk result (λ pairs. AreSideBySide old.now new.now (map pair_of pairs.items)) }
{
    let olds = old.labels(alloc)?;
    let news = new.labels(alloc)?;
    merge(alloc, &olds, &news)
}

// The labels of both, in one pass over them.
fn merge<'a>(
    alloc: Global,
    old: &[Labelled<'_, 'a>],
    new: &[Labelled<'_, 'a>],
) -> Result<Vec<NamePair<'a>>, AllocError>
    ensures { IfOk result (λ pairs. map pair_of pairs.items ≡ merged (map labelled_of old.now) (map labelled_of new.now)) }
{
    let mut pairs = Vec::new(alloc);
    let mut place = 0;
    for one in new {
        place = merge_label(&mut pairs, old, place, one)?;
    }
    for left in place..old.len() {
        let first = &old[left];
        push_pair(&mut pairs, first.label, Sides::Removed { old: first.id })?;
    }
    Ok(pairs)
}

// Merges one new label: from a place on it goes over smaller old ones, and over the same one. Gives the place of the next.
fn merge_label<'a>(
    pairs: &mut Vec<NamePair<'a>>,
    old: &[Labelled<'_, 'a>],
    start: usize,
    new: &Labelled<'_, 'a>,
) -> Result<usize, AllocError>
    ensures { IfOk result (λ place. MergesLabel (map pair_of pairs.old.items) (map pair_of pairs.new.items) (map labelled_of (drop start old.now)) (map labelled_of (drop place old.now)) (labelled_of new.now)) }
{
    let mut place = start;
    'smaller: while place < old.len() {
        let first = &old[place];
        match first.label.cmp(new.label) {
            Ordering::Less => push_pair(pairs, first.label, Sides::Removed { old: first.id })?,
            Ordering::Equal => {
                push_pair(
                    pairs,
                    new.label,
                    Sides::Both {
                        old: first.id,
                        new: new.id,
                    },
                )?;
                return Ok(place + 1);
            }
            Ordering::Greater => break,
        }
        place += 1;
    }
    push_pair(pairs, new.label, Sides::Added { new: new.id })?;
    Ok(place)
}

fn push_pair<'a>(
    pairs: &mut Vec<NamePair<'a>>,
    label: &Label<'a>,
    sides: Sides,
) -> Result<(), AllocError>
    ensures { OnOk result (map pair_of pairs.new.items ≡ map pair_of pairs.old.items ++ (record { label = label_of label.now; sides = sides }) ∷ []) }
{
    let label = copy_label(label)?;
    pairs.push(NamePair { label, sides })?;
    Ok(())
}
