// What the programs share: numbers and words from their bytes, and lines of text.
#![tactic(auto)]

pub mod line;
pub mod word;
