// Bézier nets.
#![tactic(auto)]

mod bezier;

pub use bezier::bezier_net;

// For the crates above: no preconditions.
pub use bezier::no_triangle;
