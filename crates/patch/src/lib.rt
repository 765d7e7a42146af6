// The patch: the differential walk through an old record, over its pieces and the contracts of the run.
#![tactic(auto)]

pub mod call;
pub mod header;
pub mod parts;
pub mod statement;
