// Surface points, the viewer's points and Bézier nets of a net with an outline.
#![tactic(auto)]

mod bezier_nets;
mod points;

// The calls of document 02, a: no preconditions.
pub use bezier_nets::bezier_net_outlined;
pub use points::{surface_point_outlined, view_point_outlined};

// For the crates above, whose callers lend an output for the point: no preconditions either.
pub use points::{surface_point_outlined_with, view_point_outlined_with};
