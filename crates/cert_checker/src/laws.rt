//! What the headline says of certificates that are made, of ids, and of ends of traces, as laws: calls that do nothing, for their contracts.

ghost use Rattle.cert_checker.specs.Headline.{AcceptedHolds, IdsEndByReferences, TracesEndByRules};

/// What `check` says of a certificate that it accepts holds of each of which no rule fails. A maker that says so of
/// what it makes has promised it, with no check after it.
pub fn accepted_holds()
    ensures { AcceptedHolds }
{}

/// Where a certificate is accepted, each of its ids ends within twenty references, by no rule of bags and themes.
pub fn ids_end_by_references()
    ensures { IdsEndByReferences }
{}

/// The end of a goal's trace, which a leaf is held against and which is shown of a device, is where the rules end.
pub fn traces_end_by_rules()
    ensures { TracesEndByRules }
{}
