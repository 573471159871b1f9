//! What a resource says, written as it stands on one side of an arrow, or behind its label.

ghost use Rattle.std.specs.Prelude.{◌++◌};
ghost use Rattle.contract_words.specs.Writes.{Writes};
ghost use Rattle.stack_diff.specs.names.Label.{label_of};
ghost use Rattle.answer_text.specs.ContentSeen.{content_of};
ghost use Rattle.stack_diff.specs.names.LabelText.{label_text};
ghost use Rattle.resource_text.specs.ContentText.{content_text, content_behind};

use answer_text::{Content, Form, write_value_in};
use stack_diff::{Label, PackageNames};
use std::io::{self, Write};

#[tactic(auto, unfolding(crate::specs::ContentText::content_text))]
pub(crate) fn write_content<W: Write + Drop>(
    form: Form,
    packages: &PackageNames<'_>,
    content: &Content<'_>,
    out: &mut W,
) -> io::Result<()>
    ensures { Writes W.contents out.old out.new result (content_text form packages.now (content_of content.now)) }
{
    match content {
        Content::Value(value) => write_value_in(form, packages, value, out),
        Content::Bag(_) => out.write_all(b"bag"),
        Content::Absent(label) => write_with_label(packages, b"absent ", label, out),
        Content::TooManyReferences(label) => {
            write_with_label(packages, b"too many references ", label, out)
        }
        Content::TooManyParents(label) => write_with_label(
            packages,
            b"too many parents ",
            label,
            out,
        ),
    }
}

/// Writes it behind a label: of a bag nothing, whose rows have lines of their own.
#[tactic(auto, unfolding(crate::specs::ContentText::content_behind))]
pub(crate) fn write_content_behind<W: Write + Drop>(
    form: Form,
    packages: &PackageNames<'_>,
    content: &Content<'_>,
    out: &mut W,
) -> io::Result<()>
    ensures { Writes W.contents out.old out.new result (content_behind form packages.now (content_of content.now)) }
{
    if matches!(content, Content::Bag(_)) {
        return Ok(());
    }
    out.write_all(b" ")?;
    write_content(form, packages, content, out)
}

fn write_with_label<W: Write + Drop>(
    packages: &PackageNames<'_>,
    words: &[u8],
    label: &Label<'_>,
    out: &mut W,
) -> io::Result<()>
    ensures { Writes W.contents out.old out.new result (words.now ++ label_text packages.now (label_of label.now)) }
{
    out.write_all(words)?;
    packages.write_label(label, out)
}
