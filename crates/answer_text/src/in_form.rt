//! What values and the keys of rows say, written in either form.

ghost use Rattle.contract_words.specs.Writes.{Writes};
ghost use Rattle.answer_text.specs.ContentSeen.{value_content_of, row_key_of};
ghost use Rattle.answer_text.specs.InForm.{value_in, key_in, row_value_in};

use crate::content::{RowKey, ValueContent};
use crate::value_notation::{write_key_notation, write_row_notation, write_value_notation};
use crate::value_text::{write_row_key, write_value_content};
use names::PackageNames;
use notation::Form;
use std::io::{self, Write};

/// Writes what a value says.
#[tactic(auto, unfolding(crate::specs::InForm::value_in))]
pub fn write_value_in<W: Write + Drop>(
    form: Form,
    packages: &PackageNames<'_>,
    value: &ValueContent<'_>,
    out: &mut W,
) -> io::Result<()>
    ensures { Writes W.contents out.old out.new result (value_in form packages.now (value_content_of value.now)) }
{
    match form {
        Form::Android => write_value_notation(packages, value, out),
        Form::Raw => write_value_content(packages, value, out),
    }
}

/// Writes what tells a row from the others of its bag.
#[tactic(auto, unfolding(crate::specs::InForm::key_in))]
pub fn write_key_in<W: Write + Drop>(
    form: Form,
    packages: &PackageNames<'_>,
    key: &RowKey<'_>,
    out: &mut W,
) -> io::Result<()>
    ensures { Writes W.contents out.old out.new result (key_in form packages.now (row_key_of key.now)) }
{
    match form {
        Form::Android => write_key_notation(packages, key, out),
        Form::Raw => write_row_key(packages, key, out),
    }
}

/// Writes the value of a row.
#[tactic(auto, unfolding(crate::specs::InForm::row_value_in))]
pub fn write_row_value_in<W: Write + Drop>(
    form: Form,
    packages: &PackageNames<'_>,
    key: &RowKey<'_>,
    value: &ValueContent<'_>,
    out: &mut W,
) -> io::Result<()>
    ensures { Writes W.contents out.old out.new result (row_value_in form packages.now (row_key_of key.now) (value_content_of value.now)) }
{
    match form {
        Form::Android => write_row_notation(packages, key, value, out),
        Form::Raw => write_value_content(packages, value, out),
    }
}
