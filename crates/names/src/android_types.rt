//! The types of Android's resources.

ghost use Rattle.std.specs.Prelude.{◌≡◌};
ghost use Rattle.names.specs.AndroidTypes.{is_android_type};

/// All of them (aapt2: `ResourceType`).
#[rattlefmt::skip]
const TYPES: [&[u8]; 27] = [
    b"anim", b"animator", b"array", b"attr", b"^attr-private", b"bool", b"color", b"configVarying", b"dimen", b"drawable", b"font",
    b"fraction", b"id", b"integer", b"interpolator", b"layout", b"macro", b"menu", b"mipmap", b"navigation", b"plurals", b"raw",
    b"string", b"style", b"styleable", b"transition", b"xml",
];

/// Whether a name is that of a type of Android's.
#[tactic(auto, unfolding(crate::specs::AndroidTypes::is_android_type, crate::specs::AndroidTypes::android_types))]
pub(crate) fn is_android_type(type_name: &str) -> bool
    ensures { result ≡ is_android_type type_name.now }
{
    TYPES.contains(&type_name.as_bytes())
}
