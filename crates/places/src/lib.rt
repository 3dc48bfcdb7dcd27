// Places of the grid: the chosen triangle, the shares of its corners, and their order.
#![tactic(auto)]

mod places;

// For the crates above. `place_refusal` has no precondition, and where it refuses nothing, callers have those of the
// others.
pub use places::{Located, Ordered, locate, place_refusal, put_in_order};
