// Walks and connected sets of numbers.
#![tactic(auto)]

mod links;

// For the search of `outline`, which joins the triangles that share an edge.
pub use links::{join, link_self};
