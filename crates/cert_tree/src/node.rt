//! The nodes of a tree.

use config_box::Test;
use res_value::{ResId, Value};

/// A node of a tree: a test, or a leaf that says where the goal ends.
#[derive(Drop)]
pub enum Node {
    /// The devices that answer yes go on at the next node, the others after all nodes of those.
    Test(Test),
    /// The goal ends at this value, in this layer.
    Value { layer: usize, value: Value },
    /// The goal ends at this bag.
    Bag { id: ResId },
}
