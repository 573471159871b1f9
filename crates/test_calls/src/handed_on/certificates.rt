//! What is called of the crates of certificates, and of that of the commands, by the crate that hands it on: who uses the
//! library finds it there.

use cert_checker::{Live, Shown, Verdict, check, goal_end};
use cert_tree::{
    BoxFault, Cert, CertFault, CertGoal, Choice, ConfigBox, Goal, GoalFault, Node, Split, Test,
    Values,
};
use resource_tool::{
    InputFault, LayerList, LayersFault, Status, ToolFault, attr_bytes, bag_bytes, check_bytes,
    dump_bytes, explain_bytes, make_bytes, query_bytes, read_input, rows_bytes,
};
