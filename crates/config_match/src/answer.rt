//! What rules say.

ghost use Rattle.std.specs.Prelude.{◌≡◌};
ghost use Rattle.config_match.specs.Answer.{answer_where, answer_of_condition, is_pass, is_yes};

/// What a rule says of two records at a device.
#[derive(Clone, Copy)]
pub enum Answer {
    /// The first record is better.
    Yes,
    /// It is not.
    No,
    /// Nothing: the next rule is asked.
    Pass,
}

impl Answer {
    /// Of a rule that decides in some cases alone.
    pub(crate) fn decided(decides: bool, better: bool) -> Answer
        ensures { result ≡ answer_where decides better }
    {
        match (decides, better) {
            (true, true) => Answer::Yes,
            (true, false) => Answer::No,
            (false, _) => Answer::Pass,
        }
    }

    /// Of a condition.
    pub(crate) fn of_condition(holds: bool) -> Answer
        ensures { result ≡ answer_of_condition holds }
    {
        if holds { Answer::Pass } else { Answer::No }
    }

    pub fn is_pass(self) -> bool
        ensures { result ≡ is_pass self }
    {
        matches!(self, Answer::Pass)
    }

    pub fn is_yes(self) -> bool
        ensures { result ≡ is_yes self }
    {
        matches!(self, Answer::Yes)
    }
}
