// The rule of refinement at one vertex: by any weight table that passes the test, and by ours in lower terms.
#![tactic(auto)]

mod reduced;
mod rule;

// For tables that are handed in.
pub use rule::refined_triangle;

// For the steps, which go by our table.
pub use reduced::{edge_triangle, kept_triangle};
