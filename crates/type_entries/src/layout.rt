//! Where the fields of headers and entries stand.

/// The header of a type spec (AOSP: `ResTable_typeSpec`).
pub(crate) mod type_spec_header {
    pub const ID: usize = 8;

    pub const ENTRY_COUNT: usize = 12;

    pub const LEAST_SIZE: usize = 16;

    /// How many bytes the flags of an entry have, behind the header.
    pub const FLAGS_SIZE: usize = 4;
}

/// The header of a type (AOSP: `ResTable_type`), which ends with its configuration.
pub mod type_header {
    pub const ID: usize = 8;

    pub const FLAGS: usize = 9;

    pub const OFFSET_COUNT: usize = 12;

    pub const ENTRIES_START: usize = 16;

    pub const CONFIG: usize = 20;

    /// With the size field of the configuration.
    pub const LEAST_SIZE: usize = 24;

    /// How many bytes an entry offset has, behind the header.
    pub const ENTRY_OFFSET_SIZE: usize = 4;

    /// The offset that says that there is no entry (AOSP: `ResTable_type::NO_ENTRY`).
    pub const NO_ENTRY: u32 = 0xffff_ffff;
}

/// An entry offset of a sparse type (AOSP: `ResTable_sparseTypeEntry`).
pub(crate) mod sparse_pair {
    pub const INDEX: usize = 0;

    pub const OFFSET: usize = 2;

    /// The offset counts words of so many bytes.
    pub const WORD_SIZE: usize = 4;
}

/// An entry (AOSP: `ResTable_entry`).
pub(crate) mod entry_header {
    pub const SIZE_FIELD: usize = 0;

    pub const FLAGS: usize = 2;

    pub const KEY: usize = 4;

    pub const LEAST_SIZE: usize = 8;
}

/// What follows the key of a complex entry (AOSP: `ResTable_map_entry`).
pub(crate) mod bag_header {
    pub const PARENT: usize = 8;

    pub const COUNT: usize = 12;

    pub const LEAST_SIZE: usize = 16;
}
