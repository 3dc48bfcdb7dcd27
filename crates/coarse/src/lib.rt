// The coarse net of a net.
#![tactic(auto)]

mod coarse;

// For splitting, which establishes the preconditions.
pub use coarse::{coarse_beyond, store_coarse};
