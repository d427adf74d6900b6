// Scales: yes and no, distances, and two scales side by side.
#![tactic(auto)]

mod beside;
mod distances;
mod scales;
mod yes_no;

pub use beside::Beside;
pub use distances::Distance;
pub use scales::Scale;
