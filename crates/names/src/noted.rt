//! What the rows of base layers say of names.

ghost use Rattle.std.specs.Prelude.{◌≡◌, ◌∷◌, [], Some, IfOk, OnOk};
ghost use Rattle.names.specs.Label.{label_of};
ghost use Rattle.names.specs.Noted.{id_at, shared_number, AddsLabels, Puts};
ghost use Rattle.names.specs.StackLabels.{called};

use crate::label::Label;
use overlay_map::ResId;
use std::alloc::{AllocError, Global};
use std::collections::{BTreeMap, BTreeSet};

/// What the rows that were noted say of labels and ids.
#[derive(Drop)]
pub(crate) struct Noted<'a> {
    /// What each name stands for.
    labels: BTreeMap<Label<'a>, ResId>,
    /// The ids of all rows.
    ids: BTreeSet<u32>,
    /// Those for which a name stands.
    named: BTreeSet<u32>,
    /// Those that have a name which stands for another id.
    pub shared: BTreeSet<u32>,
}

impl<'a> Noted<'a> {
    ghost use Rattle.std.specs.Prelude.{[], ◌∷◌, map, IfOk, OnOk};
    ghost use Rattle.std.specs.BTreeSet.{difference, IsOrdered};
    ghost use Rattle.std.specs.Ordering.{nat_cmp};
    ghost use Rattle.names.specs.Label.{label_of};
    ghost use Rattle.names.specs.Noted.{by_number, AddsLabels, IsNothing, Notes};
    ghost use Rattle.names.specs.StackLabels.{called};

    /// Nothing was noted.
    pub fn new(alloc: Global) -> Noted<'a>
        ensures { IsNothing result }
    {
        Noted {
            labels: BTreeMap::new(alloc),
            ids: BTreeSet::new(alloc),
            named: BTreeSet::new(alloc),
            shared: BTreeSet::new(alloc),
        }
    }

    /// Notes the id of a row that has no name.
    pub fn note_id(&mut self, id: ResId) -> Result<(), AllocError>
        ensures { OnOk result (Notes (id.0 ∷ []) [] self.old self.new) }
    {
        put(&mut self.ids, id.0)
    }

    /// Notes the id of a row with its name. The name stands for the id, if it stands for none yet.
    pub fn note(&mut self, label: Label<'a>, id: ResId) -> Result<(), AllocError>
        ensures { OnOk result (Notes (id.0 ∷ []) (called id (label_of label.entry) ∷ []) self.old self.new) }
    {
        let first = add_label(&mut self.labels, label, id)?;
        put(&mut self.ids, id.0)?;
        put(&mut self.named, first.0)?;
        put_shared(&mut self.shared, first, id)
    }

    /// What each label stands for: the names, and the ids for which no name stands.
    pub fn into_labels(self) -> Result<BTreeMap<Label<'a>, ResId>, AllocError>
        ensures { IfOk result (λ labels. AddsLabels (map by_number (difference nat_cmp self.entry.ids self.entry.named)) self.entry.labels labels
            × IsOrdered nat_cmp self.entry.ids) }
    {
        let Noted {
            mut labels,
            ids,
            named,
            shared: _,
        } = self;
        for id in ids.difference(&named) {
            let id = ResId(*id);
            add_label(&mut labels, Label::Id(id), id)?;
        }
        Ok(labels)
    }
}

// Adds a label, which stands for an id if it stands for none yet. Gives the id that it stands for then.
fn add_label<'a>(
    labels: &mut BTreeMap<Label<'a>, ResId>,
    label: Label<'a>,
    id: ResId,
) -> Result<ResId, AllocError>
    ensures added { OnOk result (AddsLabels (called id (label_of label.entry) ∷ []) labels.old labels.new) }
    ensures first { IfOk result (λ first. id_at labels.new (label_of label.entry) ≡ Some first) }
{
    let first = labels.get(&label).copied().unwrap_or(id);
    labels.insert(label, first)?;
    Ok(first)
}

fn put(ids: &mut BTreeSet<u32>, id: u32) -> Result<(), AllocError>
    ensures { OnOk result (Puts (id ∷ []) ids.old ids.new) }
{
    ids.insert(id)?;
    Ok(())
}

// Puts an id among others, if its name stands for another one.
fn put_shared(shared: &mut BTreeSet<u32>, first: ResId, id: ResId) -> Result<(), AllocError>
    ensures { OnOk result (Puts (shared_number id (Some first)) shared.old shared.new) }
{
    if first.0 == id.0 {
        return Ok(());
    }
    put(shared, id.0)
}
