//! The lists of CLDR as numbers, in the order in which they are searched.

pub(crate) mod likely_scripts;
pub(crate) mod parents;
pub(crate) mod representatives;
