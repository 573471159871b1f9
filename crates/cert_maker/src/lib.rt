//! Makes certificates. The tree of a goal grows node by node over the boxes of its open paths: a leaf where all
//! devices of one have the same trace, else a test that parts two of them which differ in one coordinate alone.
//!
//! For the crate above: `make` answers a certificate that `check` accepts, whose tests are all needed (each parts two
//! such devices) and whose nodes are within the limit; or a device of the box for which a goal ends at no value and no
//! bag; or `NodeLimit`, where trees of needed tests have more nodes together. Where at most one coordinate of the box
//! has several values, no certificate with fewer nodes is accepted: `least_tree` has the law. `make_watched` does the
//! same as `make`, and says after each goal how far it is.
//!
//! `make_omitting` leaves out each goal that ends so at some device, and gives it with that device; what it answers for
//! the other goals is what `make` promises for them.
//!
//! ```text
//! match make(alloc, &stack, &phones, &asked, 1_000_000)? {
//!     Made::Cert(certificate) => .., // certificate.write(alloc)?
//!     Made::Counter { goal, device, ending } => .., // asked[goal] ends there
//!     Made::NodeLimit => ..,
//! }
//! ```
#![tactic(auto)]

mod growth;
mod laws;
mod made;
mod making;
mod next_test;
mod omitted;
mod omitting;
mod tree;
mod trees;

pub use cert_checker::{
    Cand, Cert, CommonTrace, ConfigBox, Device, Goal, OpenBox, OpenBoxes, OutOfMemory, Parting,
    Progress, ResId, Rule, Shown, Split, Stack, Test, Unwatched, Verdict,
};
pub use laws::{least_tree, trace_equality};
pub use made::Made;
pub use making::{make, make_watched};
pub use next_test::parting_test;
pub use omitted::{Omitted, Omitting};
pub use omitting::make_omitting;
