// The pieces of an old record, and what a change does to each: a value, a snapshot, an expression's record, an entry that is met.
#![tactic(auto)]

pub mod change;
pub mod entry;
pub mod expression;
pub mod snapshot;
