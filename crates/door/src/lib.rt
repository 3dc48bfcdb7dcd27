// Places on the door.
#![tactic(auto)]

mod cells;

// For the crates above, which have refused every other outline and place.
pub use cells::on_door;
