//! Names.

/// The name of a resource: that of its type, as `dimen`, and that of its entry among those of the type.
#[derive(Clone, Copy)]
pub struct Name<'n> {
    pub type_name: &'n str,
    pub entry_name: &'n str,
}
