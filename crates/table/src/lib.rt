// The table's layer: the types that all layers share, the check of a table, and what the layers above read of a checked one.
#![tactic(auto)]

pub mod access;
pub mod answer;
pub mod check;
pub mod header;
pub mod kind;
pub mod layout;
pub mod mentioned;
pub mod node;
pub mod paper;
pub mod script;
pub mod uses;
