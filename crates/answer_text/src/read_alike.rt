//! Which values a device reads alike.

ghost use Rattle.std.specs.Prelude.{◌≡◌};
ghost use Rattle.names.specs.Label.{label_of, is_same};
ghost use Rattle.answer_text.specs.ReadWord.{kind_read, word_read};

use crate::content::ValueContent;
use bags_themes::kind;
use names::Label;

/// The kinds of integers and colours, booleans among them (AOSP: `Res_value::TYPE_FIRST_INT` to `TYPE_LAST_INT`).
const FIRST_INT: u8 = 0x10;

const LAST_INT: u8 = 0x1f;

/// The word of what is true, as tools write it.
const TRUE: u32 = 0xffff_ffff;

/// The bits of a dimension or a fraction that say something.
const READ_BITS: u32 = 0xffff_ff3f;

impl ValueContent<'_> {
    ghost use Rattle.std.specs.Prelude.{◌≡◌};
    ghost use Rattle.answer_text.specs.ContentSeen.{value_content_of};
    ghost use Rattle.answer_text.specs.ReadAlike.{are_alike};

    /// Whether a device reads both alike.
    #[tactic(auto, using(crate::proofs::ContentEquality::broken_told), unfolding(crate::specs::ReadAlike::are_alike))]
    pub fn is_alike(&self, other: &ValueContent<'_>) -> bool
        ensures { result ≡ are_alike (value_content_of self.now) (value_content_of other.now) }
    {
        match (self, other) {
            (ValueContent::String(text), ValueContent::String(other)) => text == other,
            (ValueContent::Garbled(text), ValueContent::Garbled(other)) => text == other,
            (ValueContent::Broken(string), ValueContent::Broken(other)) => string == other,
            (ValueContent::Reference(label), ValueContent::Reference(other)) => {
                is_same_label(label, other)
            }
            (ValueContent::Attribute(label), ValueContent::Attribute(other)) => {
                is_same_label(label, other)
            }
            (
                ValueContent::Other { kind, word },
                ValueContent::Other {
                    kind: other,
                    word: other_word,
                },
            ) => {
                kind_read(*kind) == kind_read(*other)
                    && word_read(*kind, *word) == word_read(*other, *other_word)
            }
            _ => false,
        }
    }
}

/// Whether two labels are one.
#[tactic(auto, using(crate::proofs::ContentEquality::label_told))]
pub fn is_same_label(label: &Label<'_>, other: &Label<'_>) -> bool
    ensures { result ≡ is_same (label_of label.now) (label_of other.now) }
{
    label == other
}

// The kind as which a value is read: all numbers are of one.
#[tactic(auto, unfolding(crate::specs::ReadWord::kind_read))]
fn kind_read(kind: u8) -> u8
    ensures { result ≡ kind_read kind }
{
    match kind {
        kind::INT_BOOLEAN => kind,
        FIRST_INT..=LAST_INT => FIRST_INT,
        _ => kind,
    }
}

/// What is read of a word of this kind.
#[tactic(auto, unfolding(crate::specs::ReadWord::word_read))]
pub(crate) fn word_read(kind: u8, word: u32) -> u32
    ensures { result ≡ word_read kind word }
{
    match kind {
        kind::INT_BOOLEAN if word != 0 => TRUE,
        kind::DIMENSION | kind::FRACTION => word & READ_BITS,
        _ => word,
    }
}
