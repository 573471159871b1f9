//! A node of a goal that stands at tokens.

ghost use Rattle.std.specs.Prelude.{◌≡◌, ◌≢◌, ◌<◌, length, map, Err, OnOk};
ghost use Rattle.std.specs.Bool.{MatchBool};
ghost use Rattle.std.specs.Option.{option_map};
ghost use Rattle.contract_words.specs.Exact.{GivesOr};
ghost use Rattle.json_input.specs.Each.{each};
ghost use Rattle.json_tokens.specs.Standing.{value_at};
ghost use Rattle.json_tokens.specs.Kind.{kind_seen};
ghost use Rattle.json_tokens.specs.ShortList.{HasRoomIf, short_list_seen};
ghost use Rattle.json_tokens.specs.Fields.{slots_seen};
ghost use Rattle.json_tokens.specs.Reads.{ReadsOr};
ghost use Rattle.cert_tree.specs.declared.cert_fault.CertFault.TheVariants.{Syntax, OutOfMemory};
ghost use Rattle.config_box.specs.Tests.{choice_of};
ghost use Rattle.cert_tree.specs.Certificate.{node_of, most_listed};
ghost use Rattle.cert_tree.specs.CertJson.{node_in};
ghost use Rattle.cert_tree.specs.Kept.{node_seen};
ghost use Rattle.cert_tree.specs.NodeKinds.{number_item_kind, locale_item_kind, choice_kinds, at_most_kinds, among_kinds, value_kinds, bag_kinds, hold, node_kinds};

use crate::cert_fault::CertFault;
use crate::member_kinds::{coord_in, id_in, number_within};
use crate::node::Node;
use config_box::{Choice, Coord, Locale, LocaleRule, Test};
use json_tokens::{Fields, Kind, ShortList, Tokens};
use locales::read_locale;
use std::alloc::Global;

// The names of the members of nodes.

const COORD: &str = "coord";

const AT_MOST: &str = "atMost";

const IN: &str = "in";

const LAYER: &str = "layer";

const KIND: &str = "kind";

const WORD: &str = "word";

const BAG: &str = "bag";

/// The last layer of a stack.
const LAST_LAYER: u64 = 63;

/// The greatest kind of a value, which has one byte.
const LAST_KIND: u64 = 0xff;

/// The greatest word of a value, which has four bytes.
const LAST_WORD: u64 = 0xffff_ffff;

/// How many values a test can list.
pub(crate) const MOST_LISTED: usize = 512;

/// Reads a node; what it lists is written to `kinds`. A value that has none of the shapes of nodes has this fault.
pub(crate) fn read_node<'a>(
    tokens: &mut Tokens<'a>,
    alloc: Global,
    depth: usize,
    kinds: &mut [Kind<'a>],
    shape: CertFault,
    rule: LocaleRule,
) -> Result<Result<Node, CertFault>, CertFault>
    requires { length kinds.old ≡ most_listed }
    ensures value { ReadsOr Syntax OutOfMemory node_seen (node_in rule shape) (value_at depth tokens.old) result tokens.new }
    ensures shorter { OnOk result (length tokens.new < length tokens.old) }
{
    let mut members = [None; 6];
    let names = [COORD, AT_MOST, LAYER, KIND, WORD, BAG];
    let Fields::Only(list) = tokens.fields_and_list(depth, &names, &mut members, IN, kinds)? else {
        return Ok(Err(shape));
    };
    let node = node_of_members(alloc, members, list, kinds, shape, rule);
    if is_want_of_memory(&node) {
        return Err(CertFault::OutOfMemory);
    }
    Ok(node)
}

fn is_want_of_memory(node: &Result<Node, CertFault>) -> bool
    ensures { MatchBool result (node.now ≡ Err OutOfMemory) (node.now ≢ Err OutOfMemory) }
{
    matches!(node, Err(CertFault::OutOfMemory))
}

// The node that has these members, where a list is as long as this and its items are of the first of these kinds.
#[tactic(auto, unfolding(crate::specs::NodeKinds::node_kinds))]
fn node_of_members(
    alloc: Global,
    members: [Option<Kind<'_>>; 6],
    list: Option<ShortList>,
    kinds: &[Kind<'_>],
    shape: CertFault,
    rule: LocaleRule,
) -> Result<Node, CertFault>
    requires { HasRoomIf (length kinds.now) list }
    ensures { GivesOr OutOfMemory node_of result (node_kinds rule shape (slots_seen members.entry) (option_map (short_list_seen kinds.now) list)) }
{
    let [coord, at_most, layer, kind, word, bag] = members;
    let [no_coord, no_most, no_bag] = [coord.is_none(), at_most.is_none(), bag.is_none()];
    let [no_layer, no_kind, no_word] = [layer.is_none(), kind.is_none(), word.is_none()];
    let no_list = list.is_none();
    if hold(&[no_list, no_layer, no_kind, no_word, no_bag]) {
        at_most_of(coord, at_most, shape)
    } else if hold(&[no_most, no_layer, no_kind, no_word, no_bag]) {
        among_of(alloc, coord, list, kinds, shape, rule)
    } else if hold(&[no_list, no_coord, no_most, no_bag]) {
        value_of(layer, kind, word, shape)
    } else if hold(&[no_list, no_coord, no_most, no_layer, no_kind, no_word]) {
        bag_of(bag, shape)
    } else {
        Err(shape)
    }
}

fn hold(tests: &[bool]) -> bool
    ensures { result ≡ hold tests.now }
{
    tests.iter().all(|holds| *holds)
}

#[tactic(auto, unfolding(crate::specs::NodeKinds::at_most_kinds))]
fn at_most_of(
    coord: Option<Kind<'_>>,
    most: Option<Kind<'_>>,
    shape: CertFault,
) -> Result<Node, CertFault>
    ensures { node_seen result ≡ at_most_kinds shape (option_map kind_seen coord.entry) (option_map kind_seen most.entry) }
{
    let coord = coord_in(coord, shape)?;
    let most = number_within(most, LAST_WORD, shape)?;
    Ok(Node::Test(Test::AtMost(coord, most as u32)))
}

#[tactic(auto, unfolding(crate::specs::NodeKinds::among_kinds))]
fn among_of(
    alloc: Global,
    coord: Option<Kind<'_>>,
    list: Option<ShortList>,
    kinds: &[Kind<'_>],
    shape: CertFault,
    rule: LocaleRule,
) -> Result<Node, CertFault>
    requires { HasRoomIf (length kinds.now) list }
    ensures { GivesOr OutOfMemory node_of result (among_kinds rule shape (option_map kind_seen coord.entry) (option_map (short_list_seen kinds.now) list)) }
{
    let coord = coord_in(coord, shape)?;
    let Some(ShortList::Fits(count)) = list else {
        return Err(shape);
    };
    let choice = choice_in(alloc, coord, &kinds[..count], shape, rule)?;
    Ok(Node::Test(Test::Among(coord, choice)))
}

#[tactic(auto, unfolding(crate::specs::NodeKinds::choice_kinds))]
fn choice_in(
    alloc: Global,
    at: Coord,
    items: &[Kind<'_>],
    shape: CertFault,
    rule: LocaleRule,
) -> Result<Choice, CertFault>
    ensures { GivesOr OutOfMemory choice_of result (choice_kinds rule shape at (map kind_seen items.now)) }
{
    match at {
        Coord::Locale => {
            let locales = locale_items(alloc, items, shape, rule)?;
            Ok(Choice::Locales(locales))
        }
        _ => {
            let numbers = number_items(alloc, items, shape)?;
            Ok(Choice::Numbers(numbers))
        }
    }
}

#[tactic(auto, using(json_input::proofs::EachSteps::each_item_steps))]
fn number_items(alloc: Global, items: &[Kind<'_>], shape: CertFault) -> Result<Vec<u32>, CertFault>
    ensures { GivesOr OutOfMemory (λ numbers. numbers.items) result (each (number_item_kind shape) (map kind_seen items.now)) }
{
    let mut numbers = Vec::with_capacity(alloc, items.len())?;
    for item in items {
        let number = number_item(*item, shape)?;
        numbers.push(number)?;
    }
    Ok(numbers)
}

#[tactic(auto, unfolding(crate::specs::NodeKinds::number_item_kind, crate::specs::NodeKinds::number_kind))]
fn number_item(item: Kind<'_>, shape: CertFault) -> Result<u32, CertFault>
    ensures { result ≡ number_item_kind shape (kind_seen item.entry) }
{
    match item {
        Kind::Number(number) if number <= LAST_WORD => Ok(number as u32),
        _ => Err(shape),
    }
}

#[tactic(auto, using(json_input::proofs::EachSteps::each_item_steps))]
fn locale_items(
    alloc: Global,
    items: &[Kind<'_>],
    shape: CertFault,
    rule: LocaleRule,
) -> Result<Vec<Locale>, CertFault>
    ensures { GivesOr OutOfMemory (λ locales. locales.items) result (each (locale_item_kind rule shape) (map kind_seen items.now)) }
{
    let mut locales = Vec::with_capacity(alloc, items.len())?;
    for item in items {
        let locale = locale_item(*item, shape, rule)?;
        locales.push(locale)?;
    }
    Ok(locales)
}

#[tactic(auto, unfolding(crate::specs::NodeKinds::locale_item_kind))]
fn locale_item(item: Kind<'_>, shape: CertFault, rule: LocaleRule) -> Result<Locale, CertFault>
    ensures { result ≡ locale_item_kind rule shape (kind_seen item.entry) }
{
    match item {
        Kind::Text(text) => read_locale(text, rule).map_err(|_| shape),
        _ => Err(shape),
    }
}

#[tactic(auto, unfolding(crate::specs::NodeKinds::value_kinds))]
fn value_of(
    layer: Option<Kind<'_>>,
    kind: Option<Kind<'_>>,
    word: Option<Kind<'_>>,
    shape: CertFault,
) -> Result<Node, CertFault>
    ensures { node_seen result ≡ value_kinds shape (option_map kind_seen layer.entry) (option_map kind_seen kind.entry) (option_map kind_seen word.entry) }
{
    let layer = number_within(layer, LAST_LAYER, shape)?;
    let kind = number_within(kind, LAST_KIND, shape)?;
    let word = number_within(word, LAST_WORD, shape)?;
    Ok(Node::Value {
        layer: layer as usize,
        value: res_value::Value {
            kind: kind as u8,
            word: word as u32,
        },
    })
}

#[tactic(auto, unfolding(crate::specs::NodeKinds::bag_kinds))]
fn bag_of(bag: Option<Kind<'_>>, shape: CertFault) -> Result<Node, CertFault>
    ensures { node_seen result ≡ bag_kinds shape (option_map kind_seen bag.entry) }
{
    let id = id_in(bag, shape)?;
    Ok(Node::Bag { id })
}
