// Weighted sums of at most nine signed numbers, and the rounded weighted mean. The callers in other crates weight three
// numbers, the controls of a vertex, or six, those of an edge's two ends.
ghost use Rattle.std.specs.Prelude.{◌≡◌, ◌<◌, ◌≤◌, ◌^◌};
ghost use Rattle.exact.specs.WeightedSum.{weighted_sum, Summed, Within};
ghost use Rattle.exact.specs.Rounding.{rounded};

use crate::rounding::round_quotient;

// Weights times values, added up. Nine terms whose weights are at most 2 to the power 26 in size stay below 2 to the
// power 61, whatever the values are: the precondition is a bound on the weights and their count alone. For `coarse` and
// `rule`, whose weights are literals or a table's.
pub fn weighted_sum<const N: usize>(weights: [i64; N], values: [i32; N]) -> i64
    requires { Within (2 ^ 26) weights × (N ≤ 9) }
    ensures { Summed weights.entry values.entry result }
{
    let mut sum: i64 = 0;
    for (&w, &v) in weights.iter().zip(&values) {
        sum += w * (v as i64);
    }
    sum
}

// The weighted sum over d, rounded once, with the bounds of the sum and a divisor from 1 to 2 to the power 61. For
// `rule`.
pub fn weighted_mean<const N: usize>(weights: [i64; N], values: [i32; N], d: u64) -> i64
    requires { Within (2 ^ 26) weights × (N ≤ 9) × (0 < d) × (d ≤ 2 ^ 61) }
    ensures { result ≡ rounded (weighted_sum weights.entry values.entry) d }
{
    let sum = weighted_sum(weights, values);
    round_quotient(sum, d)
}
