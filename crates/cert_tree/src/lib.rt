//! Certificates: for each goal a decision tree over the coordinates of a device, whose leaves name
//! values and bags. A goal asks where an id ends, or where an attribute ends under styles. A
//! certificate is read from JSON and written as JSON; nothing here says whether it is true.
//!
//! A tree is the list of its nodes, each test before what stands behind its answer yes, and that
//! before what stands behind its answer no. So a tree of any depth is read and written item by item.
//!
//! For the crates above: contracts see a certificate as the list of its goals with their nodes,
//! by their content, not their address (`goals_of`), what a goal asks as `goal_seen` says, and a node
//! as `node_of` says. What is read of a text is exactly what it means (`cert_in`), or its first fault.
//! What is written of a certificate within the limits (`CertFits`) is read as the same goals and nodes.
//!
//! ```text
//! let certificate = Cert::read(alloc, b"{\"version\":1,\"goals\":[]}")?;
//! for CertGoal { goal, nodes } in &certificate.goals {
//!     ..
//! }
//! ```
#![tactic(auto)]

mod cert;
mod cert_fault;
mod goal_list;
mod goal_members;
mod member_kinds;
mod node;
mod node_list;
mod object;
mod progress;
mod read;
mod read_node;
mod texts;
mod write;

pub use cert::{Cert, CertGoal, OutOfMemory};
pub use cert_fault::CertFault;
pub use config_box::{BoxFault, Choice, ConfigBox, Coord, Locale, LocaleRule, Split, Test, Values};
pub use node::Node;
pub use progress::{Progress, Unwatched};
pub use res_value::{ChunkFault, Goal, GoalFault, MOST_STYLES, ResId};
