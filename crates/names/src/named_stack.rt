//! A stack with its names.

ghost use Rattle.std.specs.Prelude.{◌≡◌, map, IfOk};
ghost use Rattle.std.specs.Option.{option_map};
ghost use Rattle.names.specs.Label.{label_of};
ghost use Rattle.names.specs.Shared.{shared_ids, shared_of};
ghost use Rattle.names.specs.IdLabel.{first_name, label_of_id};
ghost use Rattle.names.specs.Merged.{labelled_of, AreLabels};
ghost use Rattle.names.specs.Noted.{id_at};
ghost use Rattle.names.specs.StackLabels.{first_with, names_in};

use crate::label::Label;
use crate::noted::Noted;
use crate::shared::{SharedNames, shared_in};
use crate::stack_labels::{name_of_row, note_tables};
use overlay_map::{ResId, Stack};
use std::alloc::{AllocError, Global};
use std::collections::BTreeMap;
use std::marker::Model;

/// A stack, and what each of its labels stands for. Contracts see it as the stack.
#[derive(Drop)]
pub struct NamedStack<'s, 'a> {
    stack: &'s Stack<'a>,
    labels: BTreeMap<Label<'a>, ResId>,
    shared: Option<SharedNames>,
}

/// A label with the id that it stands for.
#[derive(Clone, Copy)]
pub(crate) struct Labelled<'l, 'a> {
    pub label: &'l Label<'a>,
    pub id: ResId,
}

impl<'s, 'a> Model for NamedStack<'s, 'a> {
    ghost use Rattle.std.specs.Prelude.{List};
    ghost use Rattle.overlay_map.specs.Layer.{LayerOf};

    ghost Value = { List LayerOf };

    ghost use Rattle.std.specs.Prelude.{◌≡◌};
    ghost use Rattle.names.specs.Noted.{HasLabels};
    ghost use Rattle.names.specs.Shared.{shared_ids, shared_of};

    ghost view = { λ named. named.stack.now };

    ghost invariant = { λ named. HasLabels named.stack.now named.labels × (named.shared ≡ shared_of (shared_ids named.stack.now)) };
}

impl<'s, 'a> NamedStack<'s, 'a> {
    ghost use Rattle.names.specs.Merged.{labelled_of, AreLabels};
    ghost use Rattle.names.specs.StackLabels.{labelled};

    /// Notes the labels of a stack, in one walk over the rows of its base layers.
    pub fn of(alloc: Global, stack: &'s Stack<'a>) -> Result<NamedStack<'s, 'a>, AllocError>
        ensures { IfOk result (λ named. named ≡ stack.now) }
    {
        let tables = stack.base_tables(alloc)?;
        let mut noted = Noted::new(alloc);
        note_tables(alloc, &tables, &mut noted)?;
        let shared = shared_in(&noted.shared);
        let labels = noted.into_labels()?;
        Ok(NamedStack {
            stack,
            labels,
            shared,
        })
    }

    pub fn stack(&self) -> &'s Stack<'a>
        ensures { result.now ≡ self.now }
    {
        self.stack
    }

    /// The ids of base layers that have a name which stands for another id, as where names are shortened.
    pub fn shared_names(&self) -> Option<SharedNames>
        ensures { result ≡ shared_of (shared_ids self.now) }
    {
        self.shared
    }

    /// What an id is called: by the name of its first row in a base layer where that stands for the id, and else by itself.
    ///
    /// ```text
    /// let label = named.label_of_id(alloc, ResId(0x7f030000))?; // the name dimen/margin in package 0x7f
    /// ```
    #[tactic(auto, unfolding(crate::specs::IdLabel::label_of_id))]
    pub fn label_of_id(&self, alloc: Global, id: ResId) -> Result<Label<'a>, AllocError>
        ensures { IfOk result (λ label. label_of label ≡ label_of_id self.now id.0) }
    {
        let Some(label) = first_name(alloc, self.stack, id)? else {
            return Ok(Label::Id(id));
        };
        if self.id_of_name(&label) == Some(id) {
            Ok(label)
        } else {
            drop(label);
            Ok(Label::Id(id))
        }
    }

    // The id that a name stands for.
    fn id_of_name(&self, label: &Label<'a>) -> Option<ResId>
        ensures { result ≡ first_with (names_in self.now) (label_of label.now) }
    {
        match label {
            Label::Name { .. } => self.labels.get(label).copied(),
            Label::Id(_) => None,
        }
    }

    /// All labels, in rising order, with what they stand for.
    pub(crate) fn labels(&self, alloc: Global) -> Result<Vec<Labelled<'_, 'a>>, AllocError>
        ensures { IfOk result (λ labels. AreLabels (first_with (labelled self.now)) (map labelled_of labels.items)) }
    {
        labels_in(alloc, &self.labels)
    }
}

fn labels_in<'l, 'a>(
    alloc: Global,
    found: &'l BTreeMap<Label<'a>, ResId>,
) -> Result<Vec<Labelled<'l, 'a>>, AllocError>
    ensures { IfOk result (λ labels. AreLabels (id_at found.now) (map labelled_of labels.items)) }
{
    let mut labels = Vec::with_capacity(alloc, found.len())?;
    for (label, id) in found {
        labels.push(Labelled { label, id: *id })?;
    }
    Ok(labels)
}

/// The name of the first row that an id has in a base layer.
pub(crate) fn first_name<'a>(
    alloc: Global,
    stack: &Stack<'a>,
    id: ResId,
) -> Result<Option<Label<'a>>, AllocError>
    ensures { IfOk result (λ label. option_map label_of label ≡ first_name stack.now id.0) }
{
    match stack.base_row(id) {
        Some(found) => name_of_row(alloc, found.table, &found.row),
        None => Ok(None),
    }
}
