//! Certificates as JSON values.

ghost use Rattle.std.specs.Prelude.{◌≡◌, Ok, map, IfOk};
ghost use Rattle.std.specs.List.{All, list_all};
ghost use Rattle.serde_json.specs.View.{view};
ghost use Rattle.cert_tree.specs.WrittenJson.{number_data, id_data, locale_data, choice_items, test_data, node_data, goal_data, is_id_goal, version_of, cert_data};
ghost use Rattle.config_box.specs.Tests.{choice_of, test_of};
ghost use Rattle.cert_tree.specs.Certificate.{TestAt, is_id, node_of, goal_of, goals_of, CertFits};
ghost use Rattle.res_value.specs.Goal.{goal_seen};
ghost use Rattle.config_box.specs.config_record.locales.declared.locale_rule.LocaleRule as locale_rule;
ghost use Rattle.cert_tree.specs.CertJson.{goals_in_value};
ghost use Rattle.cert_tree.specs.ReadsBack.{NumberReadsBack, IdReadsBack, ChoiceReadsBack, NodeReadsBack, GoalReadsBack};

use crate::cert::{Cert, CertGoal};
use crate::node::Node;
use crate::object::{object_of_one, object_of_three, object_of_two};
use crate::texts::{id_value, locale_value};
use config_box::{Choice, Locale, Test};
use res_value::{Goal, ResId};
use serde_json::Value;
use std::alloc::{AllocError, Global};

/// The value that a certificate is written as.
pub(crate) fn cert_value(alloc: Global, cert: &Cert) -> Result<Value, AllocError>
    ensures data { IfOk result (λ value. view value ≡ cert_data (goals_of cert.now)) }
    ensures reads_back { IfOk result (λ _. (rule : locale_rule.LocaleRule) → CertFits rule (goals_of cert.now) → goals_in_value rule (cert_data (goals_of cert.now)) ≡ Ok (goals_of cert.now)) }
{
    let goals = Value::Array(goal_values(alloc, cert.goals.as_slice())?);
    let version = Value::from(version_of(cert.goals.as_slice()));
    object_of_two(alloc, ("goals", goals), ("version", version))
}

/// The version that can say these goals.
fn version_of(goals: &[CertGoal]) -> u64
    ensures { result ≡ version_of (map goal_of goals.now) }
{
    if are_ids(goals) { 1 } else { 2 }
}

fn are_ids(goals: &[CertGoal]) -> bool
    ensures { result ≡ list_all (λ g. is_id_goal (goal_of g)) goals.now }
{
    goals.iter().all(|goal| is_id(&goal.goal))
}

fn is_id(goal: &Goal) -> bool
    ensures { result ≡ is_id (goal_seen goal.now) }
{
    matches!(goal, Goal::Id(_))
}

#[tactic(auto, using(crate::proofs::WrittenSteps::written_steps))]
fn goal_values(alloc: Global, goals: &[CertGoal]) -> Result<Vec<Value>, AllocError>
    ensures data { IfOk result (λ values. map view values.items ≡ map goal_data (map goal_of goals.now)) }
    ensures reads_back { IfOk result (λ _. All GoalReadsBack (map goal_of goals.now)) }
{
    let mut values = Vec::with_capacity(alloc, goals.len())?;
    for goal in goals {
        let value = goal_value(alloc, goal)?;
        values.push(value)?;
    }
    Ok(values)
}

fn goal_value(alloc: Global, goal: &CertGoal) -> Result<Value, AllocError>
    ensures data { IfOk result (λ value. view value ≡ goal_data (goal_of goal.now)) }
    ensures reads_back { IfOk result (λ _. GoalReadsBack (goal_of goal.now)) }
{
    let nodes = Value::Array(node_values(alloc, goal.nodes.as_slice())?);
    match &goal.goal {
        Goal::Id(id) => {
            let id = id_value(alloc, *id)?;
            object_of_two(alloc, ("id", id), ("nodes", nodes))
        }
        Goal::Attr { attr, styles } => {
            let attr = id_value(alloc, *attr)?;
            let styles = Value::Array(id_values(alloc, styles.as_slice())?);
            object_of_three(alloc, ("attr", attr), ("nodes", nodes), ("styles", styles))
        }
    }
}

#[tactic(auto, using(crate::proofs::WrittenSteps::written_steps))]
fn id_values(alloc: Global, ids: &[ResId]) -> Result<Vec<Value>, AllocError>
    ensures data { IfOk result (λ values. map view values.items ≡ map id_data ids.now) }
    ensures reads_back { IfOk result (λ _. All IdReadsBack ids.now) }
{
    let mut values = Vec::with_capacity(alloc, ids.len())?;
    for id in ids {
        let value = id_value(alloc, *id)?;
        values.push(value)?;
    }
    Ok(values)
}

#[tactic(auto, using(crate::proofs::WrittenSteps::written_steps))]
fn node_values(alloc: Global, nodes: &[Node]) -> Result<Vec<Value>, AllocError>
    ensures data { IfOk result (λ values. map view values.items ≡ map node_data (map node_of nodes.now)) }
    ensures reads_back { IfOk result (λ _. All NodeReadsBack (map node_of nodes.now)) }
{
    let mut values = Vec::with_capacity(alloc, nodes.len())?;
    for node in nodes {
        let value = node_value(alloc, node)?;
        values.push(value)?;
    }
    Ok(values)
}

fn node_value(alloc: Global, node: &Node) -> Result<Value, AllocError>
    ensures data { IfOk result (λ value. view value ≡ node_data (node_of node.now)) }
    ensures reads_back { IfOk result (λ _. NodeReadsBack (node_of node.now)) }
{
    match node {
        Node::Test(test) => test_value(alloc, test),
        Node::Value { layer, value } => {
            let (layer, kind, word) = (*layer, value.kind, value.word);
            let kind = ("kind", Value::from(kind));
            let layer = ("layer", Value::from(layer));
            object_of_three(alloc, kind, layer, ("word", Value::from(word)))
        }
        Node::Bag { id } => {
            let id = id_value(alloc, *id)?;
            object_of_one(alloc, ("bag", id))
        }
    }
}

fn test_value(alloc: Global, test: &Test) -> Result<Value, AllocError>
    ensures data { IfOk result (λ value. view value ≡ test_data (test_of test.now)) }
    ensures reads_back { IfOk result (λ _. NodeReadsBack (TestAt (test_of test.now))) }
{
    match test {
        Test::AtMost(coord, most) => {
            let coord = Value::try_from_str(alloc, coord.name())?;
            object_of_two(alloc, ("atMost", Value::from(*most)), ("coord", coord))
        }
        Test::Among(coord, choice) => {
            let coord = Value::try_from_str(alloc, coord.name())?;
            let listed = Value::Array(choice_values(alloc, choice)?);
            object_of_two(alloc, ("coord", coord), ("in", listed))
        }
    }
}

#[tactic(auto, using(crate::proofs::ReadsBackLemmas::choices_back))]
fn choice_values(alloc: Global, choice: &Choice) -> Result<Vec<Value>, AllocError>
    ensures data { IfOk result (λ values. map view values.items ≡ choice_items (choice_of choice.now)) }
    ensures reads_back { IfOk result (λ _. ChoiceReadsBack (choice_of choice.now)) }
{
    match choice {
        Choice::Numbers(numbers) => number_values(alloc, numbers.as_slice()),
        Choice::Locales(locales) => locale_values(alloc, locales.as_slice()),
    }
}

#[tactic(auto, using(crate::proofs::WrittenSteps::written_steps))]
fn number_values(alloc: Global, numbers: &[u32]) -> Result<Vec<Value>, AllocError>
    ensures data { IfOk result (λ values. map view values.items ≡ map number_data numbers.now) }
    ensures reads_back { IfOk result (λ _. All NumberReadsBack numbers.now) }
{
    let mut values = Vec::with_capacity(alloc, numbers.len())?;
    for number in numbers {
        values.push(Value::from(*number))?;
    }
    Ok(values)
}

#[tactic(auto, using(crate::proofs::WrittenSteps::written_steps))]
fn locale_values(alloc: Global, locales: &[Locale]) -> Result<Vec<Value>, AllocError>
    ensures { IfOk result (λ values. map view values.items ≡ map locale_data locales.now) }
{
    let mut values = Vec::with_capacity(alloc, locales.len())?;
    for locale in locales {
        let value = locale_value(alloc, *locale)?;
        values.push(value)?;
    }
    Ok(values)
}
