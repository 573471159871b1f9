//! Kinds of chunks, and where the fields stand that are looked at.

/// The kinds of chunks (AOSP: `RES_STRING_POOL_TYPE` and its like).
pub(crate) mod kind {
    pub const POOL: u16 = 0x0001;

    pub const TABLE: u16 = 0x0002;

    pub const PACKAGE: u16 = 0x0200;

    pub const TYPE: u16 = 0x0201;

    pub const TYPE_SPEC: u16 = 0x0202;

    pub const LIBRARY: u16 = 0x0203;

    pub const OVERLAYABLE: u16 = 0x0204;

    pub const STAGED_ALIAS: u16 = 0x0206;
}

/// The header of a table (AOSP: `ResTable_header`).
pub(crate) const LEAST_TABLE_HEADER: usize = 12;

/// The header of a type (AOSP: `ResTable_type`).
pub(crate) mod type_header {
    pub const FLAGS: usize = 9;

    pub const OFFSET_COUNT: usize = 12;

    pub const ENTRIES_START: usize = 16;

    pub const CONFIG: usize = 20;
}

/// A configuration (AOSP: `ResTable_config`).
pub(crate) mod config {
    pub const GENDER: usize = 19;

    /// The fields that are read stand before this place. Behind it Android 8.1 keeps whether it has computed a script
    /// (AOSP: `localeScriptWasComputed`), and later versions more.
    pub const KNOWN: usize = 50;
}

/// An entry (AOSP: `ResTable_entry`).
pub(crate) mod entry {
    pub const FLAGS: usize = 2;
}
