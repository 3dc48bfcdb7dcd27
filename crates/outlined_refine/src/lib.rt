// Refining with an outline.
#![tactic(auto)]

mod faults;
mod refining;

// The call of document 02, a: no preconditions.
pub use refining::refine_outlined;

// For the crates above: no preconditions.
pub use faults::outlined_short;
