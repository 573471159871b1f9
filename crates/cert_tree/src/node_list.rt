//! The nodes of a goal that stand at tokens.

ghost use Rattle.std.specs.Prelude.{◌+◌, ◌<◌, ◌≤◌, length, IfOk, OnOk};
ghost use Rattle.json_tokens.specs.Standing.{value_at, items_at};
ghost use Rattle.json_tokens.specs.Reads.{Reads, ReadsOr};
ghost use Rattle.cert_tree.specs.declared.cert_fault.CertFault.TheVariants.{Syntax, OutOfMemory};
ghost use Rattle.cert_tree.specs.Certificate.{most_nodes};
ghost use Rattle.cert_tree.specs.Kept.{nodes_kept, fault_unless_more};
ghost use Rattle.cert_tree.specs.CertJson.{nodes_in};

use crate::cert_fault::CertFault;
use crate::node::Node;
use crate::read_node::{MOST_LISTED, read_node};
use config_box::LocaleRule;
use json_tokens::{Kind, Malformed, Tokens};
use std::alloc::Global;

/// How many nodes the goals of a certificate can have, all goals together.
const MOST_NODES: usize = 1_000_000;

/// Reads the list of the nodes of the goal of this number, where so many nodes stand in those before it.
pub(crate) fn read_nodes(
    tokens: &mut Tokens<'_>,
    alloc: Global,
    depth: usize,
    goal: usize,
    nodes_before: usize,
    rule: LocaleRule,
) -> Result<Result<Vec<Node>, CertFault>, CertFault>
    requires { nodes_before ≤ most_nodes }
    ensures value { ReadsOr Syntax OutOfMemory nodes_kept (nodes_in rule goal nodes_before) (value_at depth tokens.old) result tokens.new }
    ensures few { IfOk result (λ kept. IfOk kept (λ nodes. nodes_before + length nodes.items ≤ most_nodes)) }
    ensures shorter { OnOk result (length tokens.new < length tokens.old) }
{
    if !tokens.enter_list(depth)? {
        return Ok(Err(CertFault::Shape(goal, 0)));
    }
    let room = MOST_NODES - nodes_before;
    let mut kinds = [Kind::Other; MOST_LISTED];
    let mut nodes = Vec::new(alloc);
    'items: while tokens.next_item() {
        if nodes.len() == room {
            tokens.pass_items(depth - 1)?;
            return Ok(Err(CertFault::TooManyNodes));
        }
        let shape = CertFault::Shape(goal, nodes.len());
        match read_node(tokens, alloc, depth - 1, &mut kinds, shape, rule)? {
            Ok(node) => nodes.push(node)?,
            Err(fault) => {
                let first = first_fault(tokens, depth - 1, room - nodes.len() - 1, fault)?;
                return Ok(Err(first));
            }
        }
    }
    Ok(Ok(nodes))
}

// The nodes that are left are counted and passed. Where they are at most so many, this fault is the first one.
fn first_fault(
    tokens: &mut Tokens<'_>,
    depth: usize,
    most: usize,
    fault: CertFault,
) -> Result<CertFault, Malformed>
    ensures value { Reads (λ fault. fault) (fault_unless_more most fault) (items_at depth tokens.old) result tokens.new }
    ensures shorter { OnOk result (length tokens.new < length tokens.old) }
{
    let mut count = 0;
    'items: while tokens.next_item() {
        if count == most {
            tokens.pass_items(depth)?;
            return Ok(CertFault::TooManyNodes);
        }
        tokens.pass(depth)?;
        count += 1;
    }
    Ok(fault)
}
