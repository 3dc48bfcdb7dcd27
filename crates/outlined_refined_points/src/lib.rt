// Points of the net refined with an outline, and demand 3 on the door of the running code.
#![tactic(auto)]

mod faults;
mod points;

// The call of document 02, a, in one go: no preconditions.
pub use points::refined_point_outlined;

// For the crates above, whose callers lend one output more: no preconditions either.
pub use points::refined_point_outlined_with;
