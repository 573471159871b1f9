//! What can be found.

ghost use Rattle.std.specs.Prelude.{◌≡◌, ◌<◌};
ghost use Rattle.resource_tool.specs.Finding.{place_of, name_of, differs};

/// How many kinds of findings there are.
pub(crate) const FINDING_COUNT: usize = 16;

/// What a table can have that is read otherwise than a device may read it.
#[derive(Clone, Copy)]
pub(crate) enum Finding {
    /// A type whose entry offsets have 16 bits.
    ShortOffsets,
    /// A type with flags that are not known.
    TypeFlags,
    /// A type whose configuration has a grammatical gender.
    Gender,
    /// A type whose configuration says something behind the fields that are read, such as a numbering system.
    NewerQualifier,
    /// A compact entry.
    CompactEntry,
    /// An entry with flags that are not known.
    EntryFlags,
    /// A chunk that says which packages are shared libraries.
    Library,
    /// A chunk that says which resources may be overlaid.
    Overlayable,
    /// A chunk that gives ids other ids.
    StagedAlias,
    /// A chunk that is not known.
    UnknownChunk,
    /// A row with a dynamic reference.
    DynamicReference,
    /// A row with a dynamic attribute.
    DynamicAttribute,
    /// A row with a string that cannot be read.
    BrokenString,
    /// A row that is set aside, for its script or its variant.
    SetAside,
    /// A row that AOSP matches with other locales.
    Locale,
    /// The same, where such a locale is one of the box.
    BoxLocale,
}

impl Finding {
    /// All of them, in their order.
    pub const ALL: [Finding; FINDING_COUNT] = [
        Finding::ShortOffsets,
        Finding::TypeFlags,
        Finding::Gender,
        Finding::NewerQualifier,
        Finding::CompactEntry,
        Finding::EntryFlags,
        Finding::Library,
        Finding::Overlayable,
        Finding::StagedAlias,
        Finding::UnknownChunk,
        Finding::DynamicReference,
        Finding::DynamicAttribute,
        Finding::BrokenString,
        Finding::SetAside,
        Finding::Locale,
        Finding::BoxLocale,
    ];

    /// The place in `ALL`.
    #[tactic(auto, unfolding(crate::specs::Finding::place_of))]
    pub fn place(self) -> usize
        ensures value { result ≡ place_of self }
        ensures within { result < 16 }
    {
        self as usize
    }

    /// The name that is printed.
    #[tactic(auto, unfolding(crate::specs::Finding::name_of))]
    pub fn name(self) -> &'static str
        ensures { result.now ≡ name_of self }
    {
        match self {
            Finding::ShortOffsets => "16-bit-offsets",
            Finding::TypeFlags => "type-flags",
            Finding::Gender => "gender",
            Finding::NewerQualifier => "newer-qualifier",
            Finding::CompactEntry => "compact-entry",
            Finding::EntryFlags => "entry-flags",
            Finding::Library => "library",
            Finding::Overlayable => "overlayable",
            Finding::StagedAlias => "staged-alias",
            Finding::UnknownChunk => "unknown-chunk",
            Finding::DynamicReference => "dynamic-reference",
            Finding::DynamicAttribute => "dynamic-attribute",
            Finding::BrokenString => "broken-string",
            Finding::SetAside => "set-aside",
            Finding::Locale => "locale",
            Finding::BoxLocale => "box-locale",
        }
    }

    /// Whether an answer can differ from a device's. Which resources may be overlaid is a matter of the id map; whether
    /// a locale of some device makes a difference is not known without a box.
    #[tactic(auto, unfolding(crate::specs::Finding::differs))]
    pub fn differs(self) -> bool
        ensures { result ≡ differs self }
    {
        match self {
            Finding::Overlayable | Finding::SetAside | Finding::Locale => false,
            _ => true,
        }
    }
}
