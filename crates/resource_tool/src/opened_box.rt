//! What `make` is asked of.

ghost use Rattle.resource_text.specs.cert_maker.config_box.ByRule.{IsByRule};

use command_base::{LocaleRule, Stack};
use resource_text::ConfigBox;

/// The layers and the box that `make` is asked of.
#[derive(Drop)]
pub(crate) struct OpenedBox<'a> {
    pub stack: Stack<'a>,
    pub members: ConfigBox,
    /// By which rule the locales of the box are compared.
    pub rule: LocaleRule,
    ghost by_rule: { IsByRule rule members },
}
