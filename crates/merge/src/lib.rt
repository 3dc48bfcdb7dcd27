// Merging a coarse net and details into a net.
#![tactic(auto)]

mod merging;
mod sums;

// The call of document 01: no preconditions.
pub use merging::merge;
