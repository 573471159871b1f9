//! Where the parts of a pool stand.

/// The header of a pool (AOSP: `ResStringPool_header`).
pub(crate) mod pool_header {
    pub const STRING_COUNT: usize = 8;

    pub const STYLE_COUNT: usize = 12;

    pub const FLAGS: usize = 16;

    pub const STRINGS_START: usize = 20;

    pub const STYLES_START: usize = 24;

    pub const LEAST_SIZE: usize = 28;
}

/// How many bytes an offset has.
pub(crate) const OFFSET_SIZE: usize = 4;

/// A span of a style (AOSP: `ResStringPool_span`).
pub(crate) mod span {
    pub const NAME: usize = 0;

    pub const FIRST: usize = 4;

    pub const LAST: usize = 8;

    pub const SIZE: usize = 12;

    /// How many bytes a name has.
    pub const NAME_SIZE: usize = 4;

    /// The name that ends a style, by itself (AOSP: `ResStringPool_span::END`).
    pub const END: u32 = 0xffff_ffff;
}
