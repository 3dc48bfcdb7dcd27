// Points of the refined net, and demand 3 of the running code.
#![tactic(auto)]

mod points;

// Refining and a surface point in one go: no preconditions.
pub use points::refined_point;

// For the crates above, whose callers lend one output more: no preconditions either.
pub use points::refined_point_with;

// For the crates above: no preconditions.
pub use points::off_grid;
