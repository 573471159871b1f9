//! The lines of a tree.

ghost use Rattle.std.specs.Prelude.{◌≡◌, ◌++◌, map, OnOk, IfOk};
ghost use Rattle.command_base.specs.cert_tree.Certificate.{node_of};
ghost use Rattle.resource_tool.specs.TreeLines.{line_at, open_behind, tree_lines};
ghost use Rattle.resource_tool.specs.TreeLines.{Missing};
ghost use Rattle.resource_tool.specs.TreeLinesSeen.{line_of};

use crate::show::open_paths::OpenPaths;
use crate::show::path_end::PathEnd;
use command_base::Node;
use std::alloc::{AllocError, Global};

/// What a line of a tree shows.
#[derive(Clone, Copy)]
pub(crate) enum TreeLine<'c> {
    /// A node, by its number from 0, at the end of a path.
    NodeAt {
        number: usize,
        path: PathEnd,
        node: &'c Node,
    },
    /// A node behind the tree's end, where no path is open.
    Unreached {
        number: usize,
        node: &'c Node,
    },
    /// A path without a node, since the list ends early.
    Missing {
        path: PathEnd,
    },
}

/// The lines of the tree with these nodes.
#[tactic(auto, using(crate::proofs::LineSteps::line_steps))]
pub(crate) fn tree_lines<'c>(
    alloc: Global,
    nodes: &'c [Node],
) -> Result<Vec<TreeLine<'c>>, AllocError>
    ensures { IfOk result (λ lines. map line_of lines.items ≡ tree_lines (map node_of nodes.now)) }
{
    let mut paths = OpenPaths::at_start(alloc)?;
    let mut lines = Vec::new(alloc);
    for (number, node) in nodes.iter().enumerate() {
        let line = take_node(number, node, &mut paths)?;
        lines.push(line)?;
    }
    push_missing(paths, &mut lines)?;
    Ok(lines)
}

// The line of the next node. Then the paths are those that are open behind it.
fn take_node<'c>(
    number: usize,
    node: &'c Node,
    paths: &mut OpenPaths,
) -> Result<TreeLine<'c>, AllocError>
    ensures line { IfOk result (λ line. line_of line ≡ line_at number paths.old (node_of node.now)) }
    ensures paths { OnOk result (paths.new ≡ open_behind number paths.old (node_of node.now)) }
{
    let Some(path) = paths.pop() else {
        return Ok(TreeLine::Unreached { number, node });
    };
    if let Node::Test(_) = node {
        paths.push_answers(number, path)?;
    }
    Ok(TreeLine::NodeAt { number, path, node })
}

// Pushes a line for each path that is open.
#[tactic(auto, using(crate::proofs::LineSteps::line_steps))]
fn push_missing(paths: OpenPaths, lines: &mut Vec<TreeLine<'_>>) -> Result<(), AllocError>
    ensures { OnOk result (map line_of lines.new.items ≡ map line_of lines.old.items ++ map Missing paths) }
{
    let mut left = paths;
    'paths: while let Some(path) = left.pop() {
        lines.push(TreeLine::Missing { path })?;
    }
    Ok(())
}
