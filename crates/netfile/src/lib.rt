// The net file's round trip: written files read back, accepted files write back.
#![tactic(auto)]

mod copying;

// Writing and reading in one go: no preconditions.
pub use copying::copy_through_file;
