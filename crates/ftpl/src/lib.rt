// Properties of a table, formulas over a path of tables, and what they are worth on any scale.
#![tactic(auto)]

pub mod books;
pub mod edges;
pub mod events;
pub mod formulas;
pub mod numbers;
pub mod properties;
#[cfg(test)]
mod tests;
pub mod values;
