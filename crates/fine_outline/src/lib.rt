// The outline of a refined net.
#![tactic(auto)]

mod rows;

// For the crates above: callers establish the precondition.
pub use rows::write_fine_outline;
