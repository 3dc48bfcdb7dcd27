// Numbers as decimal text.
#![tactic(auto)]

mod digits;

// For the lines of the listing.
pub use digits::{store_count, store_number};
