//! Why a node fails.

use crate::rule::Rule;
use crate::verdict::Shown;

/// A rule that fails at a node, and the devices that show it.
#[derive(Clone, Copy)]
pub(crate) struct Failure {
    pub(crate) rule: Rule,
    pub(crate) shown: Shown,
}

impl Failure {
    ghost use Rattle.std.specs.Prelude.{◌≡◌};
    ghost use Rattle.cert_checker.specs.declared.verdict.Shown.TheVariants.{Nothing};

    /// One that no device has to show.
    pub(crate) fn of(rule: Rule) -> Failure
        ensures { result ≡ record { rule = rule; shown = Nothing } }
    {
        Failure {
            rule,
            shown: Shown::Nothing,
        }
    }
}
