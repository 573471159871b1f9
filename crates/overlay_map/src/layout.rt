//! Kinds of chunks, and where the fields of headers stand.

/// The kinds of chunks (AOSP: `RES_STRING_POOL_TYPE` and its like).
pub(crate) mod kind {
    pub const POOL: u16 = 0x0001;

    pub const TABLE: u16 = 0x0002;

    pub const PACKAGE: u16 = 0x0200;
}

/// The header of a table (AOSP: `ResTable_header`).
pub(crate) mod table_header {
    pub const LEAST_SIZE: usize = 12;
}

/// The header of a package (AOSP: `ResTable_package`).
pub(crate) mod package_header {
    pub const ID: usize = 8;

    /// An id of a resource has one byte for that of its package.
    pub const GREATEST_ID: u32 = 255;

    pub const NAME: usize = 12;

    /// How many bytes a unit of the name has.
    pub const UNIT_SIZE: usize = 2;

    /// Room for 128 units.
    pub const NAME_SIZE: usize = 256;

    /// Where the names of types stand, from the package's start.
    pub const TYPE_NAMES: usize = 268;

    /// Where the names of entries stand, from the package's start.
    pub const KEY_NAMES: usize = 276;

    pub const TYPE_ID_OFFSET: usize = 284;

    /// Without the last field, typeIdOffset, which older tools do not write.
    pub const LEAST_SIZE: usize = 284;

    /// With typeIdOffset.
    pub const SIZE_WITH_OFFSET: usize = 288;
}
