//! What a resource is called.

ghost use Rattle.std.specs.Prelude.{◌≡◌, IfOk};
ghost use Rattle.names.specs.Label.{label_of};

use overlay_map::ResId;
use std::alloc::{AllocError, Global};
use std::borrow::CowStr;

/// What a resource is called: by its name, which has the number of its package, or by its id where no name stands for
/// that. Names are lent by the table where they stand in it as UTF-8. Labels are in order: names first, by package, then
/// by type and then by entry.
#[derive(PartialEq, Eq, PartialOrd, Ord, Drop)]
pub enum Label<'a> {
    Name {
        package: u8,
        type_name: CowStr<'a, Global>,
        entry_name: CowStr<'a, Global>,
    },
    Id(ResId),
}

/// The same label: what is lent is lent again, and what is owned is copied.
pub(crate) fn copy_label<'a>(label: &Label<'a>) -> Result<Label<'a>, AllocError>
    ensures { IfOk result (λ copy. label_of copy ≡ label_of label.now) }
{
    match label {
        Label::Name {
            package,
            type_name,
            entry_name,
        } => Ok(Label::Name {
            package: *package,
            type_name: type_name.clone()?,
            entry_name: entry_name.clone()?,
        }),
        Label::Id(id) => Ok(Label::Id(*id)),
    }
}
