//! The members of a goal, as they are read.

ghost use Rattle.std.specs.Prelude.{◌≡◌, ◌<◌, ◌≤◌, length, OnOk};
ghost use Rattle.json_input.specs.Shape.{is_among};
ghost use Rattle.json_tokens.specs.Standing.{value_at};
ghost use Rattle.json_tokens.specs.Reads.{Reads, ReadsOr};
ghost use Rattle.cert_tree.specs.declared.cert_fault.CertFault.TheVariants.{Syntax, OutOfMemory};
ghost use Rattle.cert_tree.specs.CertJson.{id_item, styles_in};
ghost use Rattle.cert_tree.specs.Certificate.{most_nodes};
ghost use Rattle.cert_tree.specs.KeptGoals.{id_names, attr_names, goal_members, goal_members_seen, no_goal_members, with_member, goal_of_members, goal_result_seen, ids_seen};

use crate::cert::CertGoal;
use crate::cert_fault::CertFault;
use crate::node::Node;
use crate::node_list::read_nodes;
use config_box::LocaleRule;
use json_tokens::{Kind, Malformed, Tokens};
use res_value::{Goal, MOST_STYLES, ResId};
use std::alloc::Global;

// The names of the members of a goal.

const ID: &str = "id";

const ATTR: &str = "attr";

const STYLES: &str = "styles";

const NODES: &str = "nodes";

/// Where a goal stands, and by which rule its locales are read.
#[derive(Clone, Copy, Drop)]
pub(crate) struct GoalPlace {
    /// The number of the goal.
    pub(crate) goal: usize,
    /// How many nodes stand in the goals before it.
    pub(crate) nodes_before: usize,
    pub(crate) rule: LocaleRule,
}

/// What stands at the members of a goal. A member that is not there, or has not its shape, has the fault of the goal.
#[derive(Drop)]
pub(crate) struct GoalMembers {
    /// No member is there but of a goal of an id.
    pub(crate) of_id: bool,
    /// No member is there but of a goal of an attribute.
    pub(crate) of_attr: bool,
    pub(crate) id: Result<ResId, CertFault>,
    pub(crate) attr: Result<ResId, CertFault>,
    pub(crate) styles: Result<Vec<ResId>, CertFault>,
    pub(crate) nodes: Result<Vec<Node>, CertFault>,
}

/// Reads the members of a goal.
pub(crate) fn read_goal_members(
    tokens: &mut Tokens<'_>,
    alloc: Global,
    depth: usize,
    at: GoalPlace,
) -> Result<GoalMembers, CertFault>
    requires { at.nodes_before ≤ most_nodes }
    ensures value { ReadsOr Syntax OutOfMemory goal_members_seen (goal_members at) (value_at depth tokens.old) result tokens.new }
    ensures shorter { OnOk result (length tokens.new < length tokens.old) }
{
    let is_object = tokens.enter_object(depth)?;
    let mut members = GoalMembers::none(is_object, CertFault::Shape(at.goal, 0));
    if !is_object {
        return Ok(members);
    }
    'members: while let Some(name) = tokens.next_member()? {
        members.take(tokens, alloc, depth - 1, name, at)?;
    }
    Ok(members)
}

impl GoalMembers {
    // Of an object without members; or of another value.
    fn none(is_object: bool, shape: CertFault) -> GoalMembers
        ensures { goal_members_seen result ≡ no_goal_members is_object shape }
    {
        GoalMembers {
            of_id: is_object,
            of_attr: is_object,
            id: Err(shape),
            attr: Err(shape),
            styles: Err(shape),
            nodes: Err(shape),
        }
    }

    // Reads the value of a member. One of the same name that was read before is forgotten.
    #[tactic(auto, unfolding(crate::specs::KeptGoals::with_member))]
    fn take(
        &mut self,
        tokens: &mut Tokens<'_>,
        alloc: Global,
        depth: usize,
        name: &str,
        at: GoalPlace,
    ) -> Result<(), CertFault>
        requires { at.nodes_before ≤ most_nodes }
        ensures value { ReadsOr Syntax OutOfMemory (λ _. goal_members_seen self.new) (λ value. with_member at name.now value (goal_members_seen self.old)) (value_at depth tokens.old) result tokens.new }
        ensures shorter { OnOk result (length tokens.new < length tokens.old) }
    {
        let shape = CertFault::Shape(at.goal, 0);
        self.of_id &= is_of_id(name);
        self.of_attr &= is_of_attr(name);
        if name == NODES {
            self.nodes = Err(shape);
            self.nodes = read_nodes(tokens, alloc, depth, at.goal, at.nodes_before, at.rule)?;
            return Ok(());
        }
        if name == STYLES {
            self.styles = read_styles(tokens, alloc, depth, shape)?;
            return Ok(());
        }
        if name == ID {
            self.id = read_id(tokens, depth, shape)?;
            return Ok(());
        }
        if name == ATTR {
            self.attr = read_id(tokens, depth, shape)?;
            return Ok(());
        }
        tokens.pass(depth)?;
        Ok(())
    }

    /// The goal of these members.
    #[tactic(auto, unfolding(crate::specs::KeptGoals::goal_of_members, crate::specs::KeptGoals::asked_of))]
    pub(crate) fn into_goal(self, shape: CertFault) -> Result<CertGoal, CertFault>
        ensures { goal_result_seen result ≡ goal_of_members shape (goal_members_seen self) }
    {
        let GoalMembers {
            of_id,
            of_attr,
            id,
            attr,
            styles,
            nodes,
        } = self;
        let goal = if of_id {
            Goal::Id(id?)
        } else if of_attr {
            let attr = attr?;
            Goal::Attr {
                attr,
                styles: styles?,
            }
        } else {
            return Err(shape);
        };
        let nodes = nodes?;
        Ok(CertGoal { goal, nodes })
    }
}

#[tactic(auto, unfolding(json_input::specs::Shape::is_among))]
fn is_of_id(name: &str) -> bool
    ensures { result ≡ is_among id_names name.now }
{
    name == ID || name == NODES
}

#[tactic(auto, unfolding(json_input::specs::Shape::is_among))]
fn is_of_attr(name: &str) -> bool
    ensures { result ≡ is_among attr_names name.now }
{
    name == ATTR || name == STYLES || name == NODES
}

// The id that a text spells.
#[tactic(auto, unfolding(crate::specs::CertJson::id_item))]
fn read_id(
    tokens: &mut Tokens<'_>,
    depth: usize,
    shape: CertFault,
) -> Result<Result<ResId, CertFault>, Malformed>
    ensures value { Reads (λ id. id) (id_item shape) (value_at depth tokens.old) result tokens.new }
    ensures shorter { OnOk result (length tokens.new < length tokens.old) }
{
    match tokens.kind(depth)? {
        Kind::Text(text) => Ok(ResId::read(text).ok_or(shape)),
        _ => Ok(Err(shape)),
    }
}

// The ids of styles.
fn read_styles(
    tokens: &mut Tokens<'_>,
    alloc: Global,
    depth: usize,
    shape: CertFault,
) -> Result<Result<Vec<ResId>, CertFault>, CertFault>
    ensures value { ReadsOr Syntax OutOfMemory ids_seen (styles_in shape) (value_at depth tokens.old) result tokens.new }
    ensures shorter { OnOk result (length tokens.new < length tokens.old) }
{
    if !tokens.enter_list(depth)? {
        return Ok(Err(shape));
    }
    let mut ids = Vec::new(alloc);
    'styles: while tokens.next_item() {
        let id = read_id(tokens, depth - 1, shape)?;
        let Ok(id) = id else {
            tokens.pass_items(depth - 1)?;
            return Ok(Err(shape));
        };
        if ids.len() == MOST_STYLES {
            tokens.pass_items(depth - 1)?;
            return Ok(Err(shape));
        }
        ids.push(id)?;
    }
    Ok(Ok(ids))
}
