// Exact whole-number arithmetic: rounding of a quotient, weighted sums, and a list laid over the front of another.
// Signed arithmetic of the kernel is in `rounding` and `sums`, in the steps of `de_casteljau`, in the terms of
// `bezier`, and where details are taken, added and compared.
#![tactic(auto)]

mod filling;
mod rounding;
mod sums;

pub use filling::copy_over;
pub use rounding::{round_even, round_even_narrow, round_quotient};
pub use sums::{weighted_mean, weighted_sum};
