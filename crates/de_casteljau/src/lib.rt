// A point by de Casteljau's repeated averaging, as source document 000 has it in section 2.2.5: the six Bézier points
// of the small triangle that holds the place, the three first averages, and the last, in one coordinate and exact.
#![tactic(auto)]

mod averages;
mod points;

// For `surface`, whose places and values meet the precondition.
pub use averages::last_average;
pub use points::Corner;
