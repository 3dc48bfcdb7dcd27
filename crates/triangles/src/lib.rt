// The control points of a triangle: their range, loading them, and their order.
#![tactic(auto)]

mod loading;
mod triangles;

// For the crates above, which have refused every triangle that is not in the net.
pub use loading::load_corner;
pub use triangles::{coordinate_values, load_triangle, reorder_controls, triangle_beyond};
