// The rule by our table: kept vertices by one function, those on edges by one for each kind. A kept row's weights are
// even and an edge row's are multiples of 3, so the quotients are over 6 and over 4, of numbers in the net range. The
// steps call each kind's at one place: then the compiler writes it out there, with the table's rows as literals.
ghost use Rattle.std.specs.Prelude.{◌≡◌, [], ◌∷◌, map, ◌<◌, ◌≤◌, pos};
ghost use Rattle.exact.specs.Rounding.{rounded};
ghost use Rattle.exact.specs.WeightedSum.{weighted_sum, Within};
ghost use Rattle.net.specs.Net.{entry};
ghost use Rattle.net.specs.Refusals.{net_limit, ControlsWithin};
ghost use Rattle.subdivision.specs.WeightTable.{six, weights, refined_triangle};
ghost use Rattle.rule.specs.Reduced.{reduced_row, Reducible};

use crate::rule::values_at;
use exact::{round_even_narrow, weighted_sum};
use subdivision::WEIGHTS;

// The weights of a row over f.
fn reduced(row: [u8; 6], f: u8) -> [i64; 6]
    requires { 0 < f }
    ensures { result ≡ reduced_row f row }
{
    [
        (row[0] / f) as i64,
        (row[1] / f) as i64,
        (row[2] / f) as i64,
        (row[3] / f) as i64,
        (row[4] / f) as i64,
        (row[5] / f) as i64,
    ]
}

// Six values weighted, over 12, rounded once, in lower terms.
fn reduced_number(row: [u8; 6], f: u8, half: u32, values: [i32; 6]) -> i32
    requires { Reducible row f half × Within net_limit values }
    ensures { result ≡ rounded (weighted_sum (map pos row) values) 12 }
{
    let sum = weighted_sum(reduced(row, f), values);
    round_even_narrow(sum, half, 16777216)
}

// A control point of the refined vertex: the row that belongs to the control, in each coordinate.
fn reduced_point(row: [u8; 6], f: u8, half: u32, a: [[i32; 3]; 3], b: [[i32; 3]; 3]) -> [i32; 3]
    requires { Reducible row f half × ControlsWithin net_limit a × ControlsWithin net_limit b }
    ensures { result ≡ map (λ x. rounded (weighted_sum (map pos row) (six (λ k. entry a k x) (λ k. entry b k x))) 12)
        (0 ∷ 1 ∷ 2 ∷ []) }
{
    let x = reduced_number(row, f, half, values_at(a, b, 0));
    let y = reduced_number(row, f, half, values_at(a, b, 1));
    let z = reduced_number(row, f, half, values_at(a, b, 2));
    [x, y, z]
}

// The control triangle of a kept vertex, from its own.
pub fn kept_triangle(a: [[i32; 3]; 3]) -> [[i32; 3]; 3]
    requires { ControlsWithin net_limit a }
    ensures { result ≡ refined_triangle weights 0 a a }
{
    let rows = WEIGHTS[0];
    let c1 = reduced_point(rows[0], 2, 3, a, a);
    let c2 = reduced_point(rows[1], 2, 3, a, a);
    let c3 = reduced_point(rows[2], 2, 3, a, a);
    [c1, c2, c3]
}

// That of a vertex that halves an edge, along e1, e2 or e3 as KIND is 1, 2 or 3, from A and B, the edge's two ends. For
// `steps`, whose nets are accepted.
pub fn edge_triangle<const KIND: usize>(a: [[i32; 3]; 3], b: [[i32; 3]; 3]) -> [[i32; 3]; 3]
    requires { (1 ≤ KIND) × (KIND < 4) × ControlsWithin net_limit a × ControlsWithin net_limit b }
    ensures { result ≡ refined_triangle weights KIND a b }
{
    let rows = WEIGHTS[KIND];
    let c1 = reduced_point(rows[0], 3, 2, a, b);
    let c2 = reduced_point(rows[1], 3, 2, a, b);
    let c3 = reduced_point(rows[2], 3, 2, a, b);
    [c1, c2, c3]
}
