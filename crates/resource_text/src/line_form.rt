//! How lines are written.

use answer_text::Form;

/// How the lines about changes, and about what resources say, are written.
#[derive(Clone, Copy)]
pub enum LineForm {
    /// For people.
    Text(Form),
    /// Each as a JSON object.
    Json,
}
