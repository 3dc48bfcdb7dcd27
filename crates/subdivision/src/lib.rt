// One refinement: its weight table in code. What it is stands in specs/, and that it keeps the spline in proofs/.
#![tactic(auto)]

mod table;

pub use table::{WEIGHTS, weight_table};
