// The rule of one refinement at a vertex: the control triangles at the two ends of the vertex's edge, weighted by a
// table.
ghost use Rattle.std.specs.Prelude.{◌≡◌, true, [], ◌∷◌, map, ◌<◌, pos};
ghost use Rattle.exact.specs.Rounding.{rounded};
ghost use Rattle.exact.specs.WeightedSum.{weighted_sum};
ghost use Rattle.net.specs.Net.{entry};
ghost use Rattle.subdivision.specs.WeightTable.{six, good_row, passes, refined_triangle};

use exact::weighted_mean;

// The weights of a row as `weighted_mean` takes them.
fn widened(row: [u8; 6]) -> [i64; 6]
    ensures { result ≡ map pos row }
{
    [
        row[0] as i64,
        row[1] as i64,
        row[2] as i64,
        row[3] as i64,
        row[4] as i64,
        row[5] as i64,
    ]
}

// Six values weighted, over 12, rounded once. The weights are not negative and sum to 12, so the result lies where the
// values lie, and fits.
fn refined_number(row: [u8; 6], values: [i32; 6]) -> i32
    requires { good_row row ≡ true }
    ensures { result ≡ rounded (weighted_sum (map pos row) values) 12 }
{
    weighted_mean(widened(row), values, 12) as i32
}

// One coordinate of two control triangles, in the order of a row's weights.
pub fn values_at(a: [[i32; 3]; 3], b: [[i32; 3]; 3], x: usize) -> [i32; 6]
    requires { x < 3 }
    ensures { result ≡ six (λ k. entry a k x) (λ k. entry b k x) }
{
    [a[0][x], a[1][x], a[2][x], b[0][x], b[1][x], b[2][x]]
}

// A control point of the refined vertex: the row that belongs to the control, in each coordinate.
fn refined_point(row: [u8; 6], a: [[i32; 3]; 3], b: [[i32; 3]; 3]) -> [i32; 3]
    requires { good_row row ≡ true }
    ensures { result ≡ map (λ x. rounded (weighted_sum (map pos row) (six (λ k. entry a k x) (λ k. entry b k x))) 12)
        (0 ∷ 1 ∷ 2 ∷ []) }
{
    let x = refined_number(row, values_at(a, b, 0));
    let y = refined_number(row, values_at(a, b, 1));
    let z = refined_number(row, values_at(a, b, 2));
    [x, y, z]
}

// The control triangle of a refined vertex of a kind, from the control triangles at the two ends of its edge. For the
// crates above, which hand in a table that passes the test, as `weight_table` does, and the kind of a vertex, which is
// a row of the table; the numbers may be any.
pub fn refined_triangle(
    table: [[[u8; 6]; 3]; 4],
    kind: usize,
    a: [[i32; 3]; 3],
    b: [[i32; 3]; 3],
) -> [[i32; 3]; 3]
    requires { (passes table ≡ true) × (kind < 4) }
    ensures { result ≡ refined_triangle table kind a b }
{
    let rows = table[kind];
    let c1 = refined_point(rows[0], a, b);
    let c2 = refined_point(rows[1], a, b);
    let c3 = refined_point(rows[2], a, b);
    [c1, c2, c3]
}
