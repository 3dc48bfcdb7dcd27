// The listing program's text: the listing of a net in lines.
#![tactic(auto)]

mod lines;
mod pieces;

// For the listing program, which lends room for a line.
pub use lines::list_refusal;
pub use pieces::{Collected, list_pieces};
