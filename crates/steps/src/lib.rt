// Steps of refinement over lent slices.
#![tactic(auto)]

mod pairs;
mod sizes;
mod steps;
mod vertices;

// For the crates above: callers establish the preconditions.
pub use sizes::{ROW_SIZE, Steps, side_after};
pub use steps::{refine_row, refine_steps};
pub use vertices::store_triangle;
