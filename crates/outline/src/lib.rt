// Outlines: which triangles of a net are present.
#![tactic(auto)]

mod bytes;
mod checking;
mod search;

// The call of document 02, a: no preconditions.
pub use checking::check_outline;

// For the crates above, which have refused before the last an outline by 2 and a search by 5.
pub use bytes::{count_triangles, outline_refusal, outlined_refusal};
pub use search::is_connected;
