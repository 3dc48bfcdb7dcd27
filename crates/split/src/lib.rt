// Splitting a net into a coarse net and details.
#![tactic(auto)]

mod detail;
mod splitting;

// The call of document 01: no preconditions.
pub use splitting::split;

// The same with another lent output of the caller's, which counts for 5, and the refusals that look at the size alone;
// no preconditions either.
pub use splitting::{odd_refusal, split_with};
