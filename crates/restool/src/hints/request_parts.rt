//! What a request has.

use crate::left::LayerWords;
use crate::request::{Request, layer_words};
use command_base::{LocaleRule, Side};

/// The words of a request, by what they name, and its rule of locales.
#[derive(Clone, Copy)]
pub(crate) struct RequestParts<'t, 'a> {
    layers: LayerWords<'a>,
    /// Tables that have words of their own.
    tables: LayerWords<'a>,
    pub device: Option<&'a str>,
    /// Where the box is.
    pub members: Option<&'a str>,
    pub certificate: Option<&'a str>,
    /// The words that ask for resources or goals, where several may stand.
    pub words: &'t [&'a str],
    /// By which rule locales are read.
    pub rule: LocaleRule,
    /// The end of a hint: in which order the command takes its files, where it takes several.
    pub order: &'a [u8],
}

impl<'t, 'a> RequestParts<'t, 'a> {
    pub(crate) fn of(request: &'t Request<'a>) -> RequestParts<'t, 'a> {
        let tables = match request {
            Request::Rows(rows) => LayerWords::One(rows.table),
            Request::Dump(dump) => LayerWords::One(dump.table),
            Request::Map(map) => LayerWords::Both(map.target, map.overlay),
            _ => LayerWords::None,
        };
        let (device, members, certificate) = request.files();
        RequestParts {
            layers: layer_words(request),
            tables,
            device,
            members,
            certificate,
            words: request.words(),
            rule: request.rule(),
            order: request.order(),
        }
    }

    /// Where the layers are; of two stacks those of one side.
    pub(crate) fn layers(&self, side: Side) -> Option<&'a str> {
        match (self.layers, side) {
            (LayerWords::None, _) => None,
            (LayerWords::One(word), _)
            | (LayerWords::Both(word, _), Side::Old)
            | (LayerWords::Both(_, word), Side::New) => Some(word),
        }
    }

    /// Where the table of a layer is that has a word of its own.
    pub(crate) fn table(&self, place: usize) -> Option<&'a str> {
        match (self.tables, place) {
            (LayerWords::One(word) | LayerWords::Both(word, _), 0)
            | (LayerWords::Both(_, word), 1) => Some(word),
            _ => None,
        }
    }
}

impl<'a> Request<'a> {
    // Where the device is, the box, and the certificate.
    fn files(&self) -> (Option<&'a str>, Option<&'a str>, Option<&'a str>) {
        match self {
            Request::Query(query) => (Some(query.device), None, None),
            Request::Explain(explain) => (Some(explain.device), None, None),
            Request::Bag(bag) => (Some(bag.device), None, None),
            Request::Attr(attr) => (Some(attr.device), None, None),
            Request::Device(form) => (Some(form.device), None, None),
            Request::Survey(survey) => (None, survey.box_path, None),
            Request::Make(make) => (None, Some(make.box_path), None),
            Request::Check(check) => (None, Some(check.box_path), Some(check.certificate)),
            Request::Diff(diff) => (None, Some(diff.box_path), None),
            Request::Values(values) => (None, Some(values.box_path), None),
            Request::Unused(unused) => (None, Some(unused.box_path), None),
            Request::Show(show) => (None, None, Some(show.certificate)),
            _ => (None, None, None),
        }
    }

    fn words(&self) -> &[&'a str] {
        match self {
            Request::Query(query) => &query.words,
            Request::Attr(attr) => &attr.styles,
            Request::Make(make) => &make.goals,
            Request::Check(check) => &check.goals,
            Request::Diff(diff) => &diff.words,
            Request::Values(values) => &values.words,
            Request::Unused(unused) => &unused.words,
            _ => &[],
        }
    }

    fn rule(&self) -> LocaleRule {
        match self {
            Request::Survey(survey) => survey.locales,
            Request::Query(query) => query.locales,
            Request::Explain(explain) => explain.locales,
            Request::Bag(bag) => bag.locales,
            Request::Attr(attr) => attr.locales,
            Request::Make(make) => make.locales,
            Request::Check(check) => check.locales,
            Request::Diff(diff) => diff.locales,
            Request::Values(values) => values.locales,
            Request::Unused(unused) => unused.locales,
            Request::Device(form) => form.locales,
            _ => LocaleRule::LanguageAndRegion,
        }
    }

    fn order(&self) -> &'a [u8] {
        match self {
            Request::Query(_) => b"; query takes LAYERS DEVICE ID..",
            Request::Explain(_) => b"; explain takes LAYERS DEVICE ID",
            Request::Bag(_) => b"; bag takes LAYERS DEVICE ID",
            Request::Attr(_) => b"; attr takes LAYERS DEVICE ATTR STYLE..",
            Request::Make(_) => b"; make takes LAYERS BOX GOAL..",
            Request::Check(_) => b"; check takes LAYERS BOX CERT GOAL..",
            Request::Show(_) => b"; show takes LAYERS CERT",
            Request::Diff(_) => b"; diff takes OLD NEW BOX NAME..",
            Request::Values(_) => b"; values takes LAYERS BOX NAME..",
            Request::Unused(_) => b"; unused takes LAYERS BOX NAME..",
            Request::Survey(_) => b"; survey takes LAYERS BOX",
            _ => b"",
        }
    }
}
