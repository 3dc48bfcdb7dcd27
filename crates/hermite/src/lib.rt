// The net through given points with given derivatives: Hermite interpolation at the vertices.
#![tactic(auto)]

mod controls;
mod interpolation;
mod nets;
mod records;

// The call of document 02, c: no preconditions.
pub use interpolation::from_points;
