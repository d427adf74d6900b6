// The rules of a lawful table, and the steps that change one, over any host.
#![tactic(auto)]

mod breaches;
mod edge_facts;
mod places;
mod refusing;
mod rules;
mod steps;
mod trying;

pub use breaches::Breach;
pub use edge_facts::edges_hold;
pub use places::filled_rows;
pub use rules::check;
pub use steps::Step;
pub use trying::try_step;
