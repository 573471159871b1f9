//! What resources are called, written.

ghost use Rattle.std.specs.Prelude.{◌≡◌, map};
ghost use Rattle.std.specs.List.{list_all};
ghost use Rattle.std.specs.Option.{option_map};
ghost use Rattle.contract_words.specs.Writes.{Writes};
ghost use Rattle.names.specs.LabelText.{package_before, is_apps, is_bare_type, bare_or_quoted, full_name_text, label_text};
ghost use Rattle.names.specs.PackageWord.{package_word_of};
ghost use Rattle.names.specs.Packages.{package_name_of};
ghost use Rattle.names.specs.WordText.{before_type};

use crate::label::Label;
use crate::name_parts::{has_colon, has_slash};
use crate::package_word::PackageWord;
use crate::packages::{PackageName, PackageNames};
use crate::plain::is_plain;
use crate::quoted::write_quoted;
use crate::word_text::package_word_for;
use res_value::write_id;
use std::io::{self, Write};

/// The number of an app's own package.
const APP: u8 = 0x7f;

impl PackageNames<'_> {
    ghost use Rattle.contract_words.specs.Writes.{Writes};
    ghost use Rattle.names.specs.Label.{label_of};
    ghost use Rattle.names.specs.LabelText.{label_text};

    /// Writes what a resource is called among these packages: its name as the word that asks for it, or its id. A type or an
    /// entry that would not be read so stands between quotes, as strings are shown.
    ///
    /// ```text
    /// packages.write_label(&pair.label, &mut out)?; // android:color/white
    /// ```
    #[tactic(auto, unfolding(crate::specs::LabelText::label_text))]
    pub fn write_label<W: Write + Drop>(&self, label: &Label<'_>, out: &mut W) -> io::Result<()>
        ensures { Writes W.contents out.old out.new result (label_text self.now (label_of label.now)) }
    {
        match label {
            Label::Name {
                package,
                type_name,
                entry_name,
            } => write_name(
                &self.all,
                *package,
                type_name.as_str(),
                entry_name.as_str(),
                out,
            ),
            Label::Id(id) => write_id(*id, out),
        }
    }
}

#[tactic(auto, unfolding(crate::specs::LabelText::full_name_text, crate::specs::LabelText::parts_text))]
fn write_name<W: Write + Drop>(
    packages: &[PackageName<'_>],
    number: u8,
    type_name: &str,
    entry_name: &str,
    out: &mut W,
) -> io::Result<()>
    ensures { Writes W.contents out.old out.new result (full_name_text (map package_name_of packages.now)
        (record { package_id = number; type_name = type_name.now; entry_name = entry_name.now })) }
{
    let word = package_before(packages, number);
    write_before_type(word, out)?;
    write_part(is_bare_type(word, type_name), type_name, out)?;
    out.write_all(b"/")?;
    write_part(is_plain(entry_name), entry_name, out)
}

// The word for a package, where its resources are not told without one.
#[tactic(auto, unfolding(crate::specs::LabelText::package_before))]
fn package_before<'p>(packages: &'p [PackageName<'_>], number: u8) -> Option<PackageWord<'p>>
    ensures { option_map package_word_of result ≡ package_before (map package_name_of packages.entry.now) number }
{
    if number == APP && are_apps(packages) {
        None
    } else {
        Some(package_word_for(packages, number))
    }
}

fn are_apps(packages: &[PackageName<'_>]) -> bool
    ensures { result ≡ list_all is_apps (map package_name_of packages.now) }
{
    'packages: for package in packages {
        if package.number != APP {
            return false;
        }
    }
    true
}

fn write_before_type<W: Write + Drop>(word: Option<PackageWord<'_>>, out: &mut W) -> io::Result<()>
    ensures { Writes W.contents out.old out.new result (before_type (option_map package_word_of word.entry)) }
{
    match word {
        Some(word) => write!(out, "{word}:"),
        None => Ok(()),
    }
}

#[tactic(auto, unfolding(crate::specs::LabelText::bare_or_quoted))]
fn write_part<W: Write + Drop>(bare: bool, name: &str, out: &mut W) -> io::Result<()>
    ensures { Writes W.contents out.old out.new result (bare_or_quoted bare name.now) }
{
    if bare {
        out.write_all(name.as_bytes())
    } else {
        write_quoted(name.as_bytes(), out)
    }
}

fn is_bare_type(word: Option<PackageWord<'_>>, type_name: &str) -> bool
    ensures { result ≡ is_bare_type (option_map package_word_of word.entry) type_name.now }
{
    is_plain(type_name) && !has_slash(type_name) && (word.is_some() || !has_colon(type_name))
}
