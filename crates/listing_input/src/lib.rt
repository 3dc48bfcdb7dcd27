// The listing program's input: from the bytes of a net file to the refined net that is listed.
#![tactic(auto)]

mod files;

// For the listing program, which lends its buffers.
pub use files::{BUFFER_SIZE, INPUT_SIZE, refine_input};
