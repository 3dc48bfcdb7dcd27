// The net file's writer.
#![tactic(auto)]

mod writing;

// The call of document 01: no preconditions.
pub use writing::write;

// For the crates above, whose callers lend one output more: no preconditions either.
pub use writing::write_with;
