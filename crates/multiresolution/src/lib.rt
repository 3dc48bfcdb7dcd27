// Splitting, cleaning and merging one after the other.
#![tactic(auto)]

mod cleaned;
mod round_trip;

// No preconditions.
pub use cleaned::clean_net;
pub use round_trip::split_and_merge;
