// The types that all layers share: an answer carries one outcome, accepted or refused for one reason, beside its arrays.

// Why a call is refused, in the order of the paper's numbers.
#[derive(Clone, Copy, Debug, PartialEq, Eq, Drop)]
pub enum Refusal {
    Header,
    Types,
    Node,
    Use,
    Depth,
    Store,
    Limit,
    Range,
    Fuel,
    Room,
    Change,
    Broken,
}

// The outcome of a call as its answer carries it: document 01 names this form, so it is no Result.
#[derive(Clone, Copy, Debug, PartialEq, Eq, Drop)]
pub enum Outcome {
    Accepted,
    Refused(Refusal),
}

// The values of 32 variables, zero from the table's count on.
#[derive(Clone, Copy, Drop)]
pub struct Store {
    pub values: [i64; 32],
}

// The changes of 32 variables, zero from the table's count on: a struct of its own, as document 01 names it, so that neither is
// taken for the other.
#[derive(Clone, Copy, Drop)]
pub struct Changes {
    pub values: [i64; 32],
}

#[derive(Clone, Copy, Drop)]
pub struct Answer {
    pub outcome: Outcome,
    pub steps: usize,
    pub walked: usize,
    pub reused: usize,
    pub fresh: usize,
    pub length: usize,
    pub values: [i64; 32],
    pub changes: [i64; 32],
}
