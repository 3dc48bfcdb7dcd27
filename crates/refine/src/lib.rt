// Refining a net by k steps.
#![tactic(auto)]

mod depth;
mod refining;

// The call of document 01: no preconditions.
pub use refining::refine;

// For the crates above: no preconditions.
pub use depth::{net_refusal, size_refusal, too_short};
