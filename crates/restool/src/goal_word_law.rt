//! The law of the words of goals: a call that does nothing, for its contract.
//!
//! ```text
//! write_goal_words(&names, id, &styles, &mut words)?; // of answer_text: the word, and behind it names
//! NamedGoal::read(alloc, word)?; // of names: that id alone, or that attribute under those styles
//! ```
ghost use Rattle.restool.specs.GoalWordReadsBack.{IdWordReadsBack, AttrWordReadsBack};

/// The word that is written of a goal is read as that goal, where it has at most 64 styles.
pub fn goal_words_read_back()
    ensures id { IdWordReadsBack }
    ensures attr { AttrWordReadsBack }
{}
