// Surface points and the viewer's points.
#![tactic(auto)]

mod answers;
mod points;

// The calls of document 01: no preconditions.
pub use answers::{Point, ViewPoint};
pub use points::{surface_point, view_point};

// For the crates above, whose callers lend an output for the point: no preconditions either.
pub use points::{surface_point_with, view_point_with};
