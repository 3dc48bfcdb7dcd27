// Details: their records in lent memory, their range, and cleaning.
#![tactic(auto)]

mod cleaning;
mod ranges;
mod records;
mod sizes;
mod storage;

// The call of document 01: no preconditions.
pub use cleaning::clean;

// For the crates above: callers establish the preconditions.
pub use cleaning::too_great;
pub use ranges::details_beyond;
pub use records::DETAIL_STRIDE;
pub use sizes::{even_size, short_details};
pub use storage::{load_details, store_details};
