// The fresh run: expressions, statements, and the whole call.
#![tactic(auto)]

pub mod call;
pub mod expression;
pub mod input;
pub mod number;
pub mod statement;
pub mod words;
