// The net file's reader.
#![tactic(auto)]

mod reading;

// The call of document 01: no preconditions.
pub use reading::read;

// For the crates above, whose callers lend one output more or have more to refuse: no preconditions either.
pub use reading::{check_file, read_with};
