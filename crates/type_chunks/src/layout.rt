//! Kinds of chunks.

/// The kinds of chunks (AOSP: `RES_TABLE_TYPE_TYPE` and `RES_TABLE_TYPE_SPEC_TYPE`).
pub(crate) mod kind {
    pub const TYPE: u16 = 0x0201;

    pub const TYPE_SPEC: u16 = 0x0202;
}
