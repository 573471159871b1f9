//! What rows have that a device may read otherwise.

ghost use Rattle.std.specs.Prelude.{◌≡◌, ◌==◌, ◌||◌};
ghost use Rattle.std.specs.List.{list_any};
ghost use Rattle.command_base.specs.cert_tree.box_answers.NumberSet.{locale_numbers};
ghost use Rattle.command_base.specs.overlay_map.res_value.Cell.{cell_of};
ghost use Rattle.command_base.specs.overlay_map.res_value.MapRows.{map_rows_of};
ghost use Rattle.command_base.specs.overlay_map.string_pool.Pool.{pool_of};
ghost use Rattle.command_base.specs.overlay_map.type_chunks.Row.{row_of};
ghost use Rattle.resource_tool.specs.Findings.{noted};
ghost use Rattle.resource_tool.specs.LayerNotes.{notes_of_rows};
ghost use Rattle.resource_tool.specs.Locales.{differs_at};
ghost use Rattle.resource_tool.specs.RowNotes.{dynamic_attribute, dynamic_reference, has_broken, has_kind, is_bag_row_of_kind, is_broken, is_broken_bag_row, is_for_other_locales, is_for_one_of, notes_of_values, notes_of_locale, notes_of_row};

use crate::locale_differences::{differs_at, differs_somewhere};
use crate::survey::finding::Finding;
use crate::survey::findings::Findings;
use crate::survey::said_numbers::number_said;
use crate::survey::site::Site;
use command_base::{Cell, Coord, Locale, LocaleRule, MapRows, Pool, Row, Stack, Value, kind};

/// A value that is an attribute of a shared library (AOSP: `Res_value::TYPE_DYNAMIC_ATTRIBUTE`).
const DYNAMIC_ATTRIBUTE: u8 = 0x08;

/// Whether some values are of these kinds, or are strings that cannot be read.
#[derive(Clone, Copy)]
struct Told {
    reference: bool,
    attribute: bool,
    broken: bool,
}

impl Told {
    const NOTHING: Told = Told {
        reference: false,
        attribute: false,
        broken: false,
    };

    // Those of a row, in one walk over its bag.
    fn of_cell(strings: &Pool<'_>, cell: Cell<'_>) -> Told
        ensures reference { result.reference ≡ has_kind dynamic_reference (cell_of cell.entry) }
        ensures attribute { result.attribute ≡ has_kind dynamic_attribute (cell_of cell.entry) }
        ensures broken { result.broken ≡ has_broken (pool_of strings.now) (cell_of cell.entry) }
    {
        match cell {
            Cell::Plain(value) => Told::of_value(strings, value),
            Cell::Bag { rows, .. } => Told::of_bag_rows(strings, rows),
        }
    }

    #[tactic(auto, using(crate::proofs::ToldSteps::told_steps))]
    fn of_bag_rows(strings: &Pool<'_>, bag_rows: MapRows<'_>) -> Told
        ensures reference { result.reference ≡ list_any (is_bag_row_of_kind dynamic_reference) (map_rows_of bag_rows.entry) }
        ensures attribute { result.attribute ≡ list_any (is_bag_row_of_kind dynamic_attribute) (map_rows_of bag_rows.entry) }
        ensures broken { result.broken ≡ list_any (is_broken_bag_row (pool_of strings.now)) (map_rows_of bag_rows.entry) }
    {
        let mut told = Told::NOTHING;
        for row in bag_rows {
            let (_, value) = row;
            told = told.or(Told::of_value(strings, value));
        }
        told
    }

    fn or(self, other: Told) -> Told
        ensures reference { result.reference ≡ (self.reference || other.reference) }
        ensures attribute { result.attribute ≡ (self.attribute || other.attribute) }
        ensures broken { result.broken ≡ (self.broken || other.broken) }
    {
        Told {
            reference: self.reference || other.reference,
            attribute: self.attribute || other.attribute,
            broken: self.broken || other.broken,
        }
    }

    fn of_value(strings: &Pool<'_>, value: Value) -> Told
        ensures reference { result.reference ≡ (value.kind == dynamic_reference) }
        ensures attribute { result.attribute ≡ (value.kind == dynamic_attribute) }
        ensures broken { result.broken ≡ is_broken (pool_of strings.now) value }
    {
        Told {
            reference: value.kind == kind::DYNAMIC_REFERENCE,
            attribute: value.kind == DYNAMIC_ATTRIBUTE,
            broken: is_broken(strings, value),
        }
    }
}

#[tactic(auto, unfolding(crate::specs::RowNotes::is_broken))]
fn is_broken(strings: &Pool<'_>, value: Value) -> bool
    ensures { result ≡ is_broken (pool_of strings.now) value }
{
    value.kind == kind::STRING && strings.get(value.word as usize).is_err()
}

#[tactic(auto, unfolding(crate::specs::RowNotes::is_for_other_locales))]
fn is_for_other_locales(row: &Row<'_>) -> bool
    ensures { result ≡ is_for_other_locales (row_of row.now) }
{
    differs_somewhere(number_said(row, Coord::Locale), row.config.set_aside())
}

#[tactic(auto, unfolding(crate::specs::RowNotes::is_for_one_of))]
fn is_for_one_of(locales: &[Locale], row: &Row<'_>) -> bool
    ensures { result ≡ is_for_one_of (locale_numbers locales.now) (row_of row.now) }
{
    differs_at_one(
        number_said(row, Coord::Locale),
        row.config.set_aside(),
        locales,
    )
}

fn differs_at_one(row_locale: u64, set_aside: bool, locales: &[Locale]) -> bool
    ensures { result ≡ list_any (differs_at row_locale set_aside) (locale_numbers locales.now) }
{
    for locale in locales {
        if differs_at(row_locale, set_aside, locale.number()) {
            return true;
        }
    }
    false
}

#[tactic(auto, using(crate::proofs::FindingsSteps::noted_steps), unfolding(crate::specs::RowNotes::notes_of_values))]
fn note_values(strings: &Pool<'_>, row: &Row<'_>, findings: &mut Findings)
    ensures { findings.new ≡ noted findings.old (notes_of_values (pool_of strings.now) (row_of row.now)) }
{
    let site = Site::Row(row.id);
    let told = Told::of_cell(strings, row.cell);
    findings.note_if(told.reference, Finding::DynamicReference, site);
    findings.note_if(told.attribute, Finding::DynamicAttribute, site);
    findings.note_if(told.broken, Finding::BrokenString, site);
}

#[tactic(auto, using(crate::proofs::FindingsSteps::noted_steps), unfolding(crate::specs::RowNotes::notes_of_locale))]
fn note_locale(rule: LocaleRule, locales: &[Locale], row: &Row<'_>, findings: &mut Findings)
    ensures { findings.new ≡ noted findings.old (notes_of_locale rule (locale_numbers locales.now) (row_of row.now)) }
{
    match rule {
        LocaleRule::LanguageAndRegion => {
            let site = Site::Row(row.id);
            findings.note_if(row.config.set_aside(), Finding::SetAside, site);
            findings.note_if(is_for_other_locales(row), Finding::Locale, site);
            findings.note_if(is_for_one_of(locales, row), Finding::BoxLocale, site);
        }
        LocaleRule::Android => {}
    }
}

#[tactic(auto, using(crate::proofs::FindingsSteps::noted_steps), unfolding(crate::specs::RowNotes::notes_of_row))]
fn note_row(
    rule: LocaleRule,
    locales: &[Locale],
    strings: &Pool<'_>,
    row: &Row<'_>,
    findings: &mut Findings,
)
    ensures { findings.new ≡ noted findings.old (notes_of_row rule (locale_numbers locales.now) (pool_of strings.now) (row_of row.now)) }
{
    note_values(strings, row, findings);
    note_locale(rule, locales, row, findings);
}

/// Adds what the rows of the layer at a place have, where locales are compared by a rule, and these are those of the box.
#[tactic(auto, unfolding(crate::specs::LayerNotes::rows_at, crate::specs::LayerNotes::strings_at), using(crate::proofs::FindingsSteps::noted_steps))]
pub(crate) fn note_rows(
    stack: &Stack<'_>,
    rule: LocaleRule,
    locales: &[Locale],
    place: usize,
    findings: &mut Findings,
)
    ensures { findings.new ≡ noted findings.old (notes_of_rows rule stack.now (locale_numbers locales.now) place) }
{
    let Some(table) = stack.layer_table(place) else {
        return;
    };
    let strings = table.strings();
    for row in table.all_rows() {
        note_row(rule, locales, &strings, &row, findings);
    }
}
