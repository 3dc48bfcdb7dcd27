// The two points of a seam, and how far apart they can be.
#![tactic(auto)]

mod answers;
mod faults;
mod points;

// The call: no preconditions.
pub use points::seam_points;

// For `ups`, whose callers lend an output for the points: the call has no preconditions either, and where it answers
// points, `ups` has that of `store_points`.
pub use answers::store_points;
pub use points::seam_points_with;
