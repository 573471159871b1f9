//! What is asked of a device.

ghost use Rattle.std.specs.Prelude.{map};
ghost use Rattle.contract_words.specs.Exact.{GivesOr};
ghost use Rattle.contract_words.specs.Sequences.{Pushes};
ghost use Rattle.res_value.specs.declared.goal_fault.GoalFault.TheVariants.{OutOfMemory};
ghost use Rattle.res_value.specs.Goal.{id_in, listed_id, ids_in};

use crate::goal_fault::GoalFault;
use crate::goal_word::GoalWord;
use crate::res_id::ResId;
use std::alloc::Global;

/// How many styles a goal can have.
pub const MOST_STYLES: usize = 64;

/// What is asked of a device.
#[derive(Clone, Debug, PartialEq, Eq, Drop)]
pub enum Goal {
    /// Where an id ends.
    Id(ResId),
    /// Where an attribute ends under styles, which are applied in their order, with force.
    Attr { attr: ResId, styles: Vec<ResId> },
}

impl Goal {
    ghost use Rattle.std.specs.Prelude.{◌≡◌, ◌≢◌, nat_le, length, if◌then◌else◌, Some, None, MatchBool};
    ghost use Rattle.std.specs.Option.{option_map};
    ghost use Rattle.contract_words.specs.Exact.{GivesOr};
    ghost use Rattle.res_value.specs.declared.goal_fault.GoalFault.TheVariants.{OutOfMemory};
    ghost use Rattle.res_value.specs.Goal.{AttrGoal, goal_seen, goal_in, most_styles};

    /// The goal of an attribute under styles; none where there are more than 64 of them.
    pub fn attr(attr: ResId, styles: Vec<ResId>) -> Option<Goal>
        ensures { option_map goal_seen result ≡
            if nat_le (length styles.items) most_styles then Some (AttrGoal attr styles.items) else None }
    {
        if styles.len() <= MOST_STYLES {
            Some(Goal::Attr { attr, styles })
        } else {
            None
        }
    }

    /// The goal that a word of ids asks for: an id, or `ATTR@STYLE,STYLE` with 1 to 64 styles.
    ///
    /// ```text
    /// Goal::read(alloc, "0x01010001@0x7f010000,0x7f010001")?; // Goal::Attr { .. }
    /// ```
    #[tactic(auto, unfolding(crate::specs::Goal::goal_in, crate::specs::Goal::goal_of_parts))]
    pub fn read(alloc: Global, word: &str) -> Result<Goal, GoalFault>
        ensures { GivesOr OutOfMemory goal_seen result (goal_in word.now) }
    {
        match GoalWord::read(alloc, word)? {
            GoalWord::Plain(text) => {
                let id = id_in(text)?;
                Ok(Goal::Id(id))
            }
            GoalWord::UnderStyles { attr, styles } => {
                let attr = id_in(attr)?;
                let styles = ids_in(alloc, &styles)?;
                Ok(Goal::Attr { attr, styles })
            }
        }
    }

    /// Whether both ask the same, which is what `==` says.
    #[tactic(auto, using(crate::proofs::GoalEquality::told_goals))]
    pub fn asks_same(&self, other: &Goal) -> bool
        ensures { MatchBool result
            (goal_seen self.now ≡ goal_seen other.now)
            (goal_seen self.now ≢ goal_seen other.now) }
    {
        self == other
    }
}

fn ids_in(alloc: Global, texts: &[&str]) -> Result<Vec<ResId>, GoalFault>
    ensures { GivesOr OutOfMemory (λ ids. ids.items) result (ids_in (map (λ text. text.now) texts.now)) }
{
    let mut ids = Vec::with_capacity(alloc, texts.len())?;
    for text in texts {
        push_id(*text, &mut ids)?;
    }
    Ok(ids)
}

#[tactic(auto, unfolding(crate::specs::Goal::listed_id))]
fn push_id(text: &str, ids: &mut Vec<ResId>) -> Result<(), GoalFault>
    ensures { Pushes OutOfMemory ids.old.items ids.new.items result (listed_id text.now) }
{
    let id = id_in(text)?;
    ids.push(id)?;
    Ok(())
}

#[tactic(auto, unfolding(crate::specs::Goal::id_in))]
fn id_in(text: &str) -> Result<ResId, GoalFault>
    ensures { GivesOr OutOfMemory (λ id. id) result (id_in text.now) }
{
    match ResId::read(text) {
        Some(id) => Ok(id),
        None => Err(GoalFault::Malformed),
    }
}
