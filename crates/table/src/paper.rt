// The paper's numbers of the code's refusals and outcomes.
ghost use Rattle.std.specs.Prelude.{◌≡◌};
ghost use Rattle.rules.specs.Outcome.{paper_number};
ghost use Rattle.table.specs.Paper.{number_of, reason_of, outcome_of};

use crate::answer::{Outcome, Refusal};

// The paper's number of a refusal.
impl From<Refusal> for u32 {
    ghost from_gives = { λ reason r. r ≡ paper_number (reason_of reason) };

    #[tactic(auto, unfolding(rules::specs::Outcome::paper_number))]
    fn from(reason: Refusal) -> u32 {
        match reason {
            Refusal::Header => 1,
            Refusal::Types => 2,
            Refusal::Node => 3,
            Refusal::Use => 4,
            Refusal::Depth => 5,
            Refusal::Store => 6,
            Refusal::Limit => 7,
            Refusal::Range => 8,
            Refusal::Fuel => 9,
            Refusal::Room => 10,
            Refusal::Change => 11,
            Refusal::Broken => 12,
        }
    }
}

// The paper's number of an outcome: 0 for accepted.
impl From<Outcome> for u32 {
    ghost from_gives = { λ outcome r. r ≡ number_of outcome };

    fn from(outcome: Outcome) -> u32 {
        match outcome {
            Outcome::Accepted => 0,
            Outcome::Refused(reason) => u32::from(reason),
        }
    }
}

// What an answer carries of a call that is accepted or refused.
impl From<Result<(), Refusal>> for Outcome {
    ghost from_gives = { λ made r. r ≡ outcome_of made };

    fn from(made: Result<(), Refusal>) -> Outcome {
        match made {
            Ok(()) => Outcome::Accepted,
            Err(reason) => Outcome::Refused(reason),
        }
    }
}
