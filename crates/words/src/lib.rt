// The words of the net file: a kind and a payload in four bytes.
#![tactic(auto)]

mod kinds;
mod layout;
mod words;

// For the writer and the reader.
pub use kinds::Kind;
pub use layout::{HEAD_SIZE, POINT_SIZE};
pub use words::{first_number, parse_word, signed_number, store_number, store_word};
