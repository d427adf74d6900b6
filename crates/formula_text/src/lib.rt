// Formula text: the rule of a formula read from its words.
#![tactic(auto)]

mod events;
mod leaves;
mod lines;
mod places;
mod readers;
mod rules;
mod spots;
mod words;

pub use rules::read_formula;
