// Bézier nets: the 19 points of a triangle times 36, as weighted sums of its nine control values.
ghost use Rattle.std.specs.Prelude.{◌≡◌, map, ℕ, ◌≤◌, ◌<◌, length};
ghost use Rattle.exact.specs.WeightedSum.{weighted_sum, Within};
ghost use Rattle.exact.specs.Filling.{over, runs};
ghost use Rattle.net.specs.Results.{refused, call_outcome};
ghost use Rattle.triangles.specs.Corners.{values_in};
ghost use Rattle.bezier.specs.Refusals.{no_triangle, bezier_refusal};
ghost use Rattle.bezier.specs.Answers.{bezier_answer, bezier_output};
ghost use Rattle.bezier.specs.Weights.{bezier_rows, points_of, terms_at, SmallTerms, joined_terms, placed, three_at};

use net::{Refusal, Size, short_net};
use triangles::{coordinate_values, load_triangle, reorder_controls, triangle_beyond};

// What the points share at a corner, in one coordinate: multiples of document 01's points there. They are formed once,
// which is faster than a sum of nine terms for each point.
#[derive(Clone, Copy)]
struct Terms {
    // 36s
    s: i32,
    // 18u towards the next corner
    ahead: i32,
    // 18u towards the previous corner
    back: i32,
    // 3v
    v: i32,
}

// The terms of the corner whose ck, cn and cm stand at a place of the nine values.
fn corner_terms(values: [i32; 9], at: usize) -> Terms
    requires { Within 16777216 values × (at ≤ 6) }
    ensures { result ≡ terms_at values at }
{
    let k = values[at];
    let n = values[at + 1];
    let m = values[at + 2];
    let s = 12 * (k + n + m);
    let ahead = 3 * (4 * k + n + m);
    let back = 9 * (k + n);
    let v = 2 * k + n;
    Terms { s, ahead, back, v }
}

// The 19 points times 36 of the terms of the three corners, in document 01's order: s1 s2 s3, u12 u13 u21 u23 u31 u32,
// v1 v2 v3, r12 r13 r23, m12 m13 m23, z.
fn join_terms(p: Terms, q: Terms, t: Terms) -> [i32; 19]
    requires { SmallTerms p × SmallTerms q × SmallTerms t }
    ensures { result ≡ joined_terms p q t }
{
    let a1 = p.ahead;
    let a2 = q.ahead;
    let a3 = t.ahead;
    let b1 = p.back;
    let b2 = q.back;
    let b3 = t.back;
    let v1 = p.v;
    let v2 = q.v;
    let v3 = t.v;
    [
        p.s,
        q.s,
        t.s,
        2 * a1,
        2 * b1,
        2 * b2,
        2 * a2,
        2 * a3,
        2 * b3,
        12 * v1,
        12 * v2,
        12 * v3,
        a1 + b2,
        b1 + a3,
        a2 + b3,
        6 * (v1 + v2),
        6 * (v1 + v3),
        6 * (v2 + v3),
        4 * (v1 + v2 + v3),
    ]
}

// The 19 points times 36, in document 01's order and in one coordinate, of the values of ck, cn, cm at each corner.
fn ordinates(values: [i32; 9]) -> [i32; 19]
    requires { Within 16777216 values }
    ensures { result ≡ map (λ row. weighted_sum row values) bezier_rows }
{
    let p = corner_terms(values, 0);
    let q = corner_terms(values, 3);
    let t = corner_terms(values, 6);
    join_terms(p, q, t)
}

// One coordinate of the 19 points, number n at place 3n + x of the output.
fn store_ordinates(numbers: [i32; 19], x: usize, out: &mut [i32])
    requires { (x < 3) × (57 ≤ length out.old) }
    ensures { out.new ≡ placed 19 x numbers out.old }
{
    for (n, &number) in numbers.iter().enumerate() {
        out[3 * n + x] = number;
    }
}

// One coordinate of the 19 points from the control triangles of the corners, each in the order ck, cn, cm.
fn write_coordinate(controls: [[[i32; 3]; 3]; 3], x: usize, out: &mut [i32])
    requires { (x < 3) × Within 16777216 (values_in controls x) × (57 ≤ length out.old) }
    ensures { out.new ≡ placed 19 x (points_of (values_in controls x)) out.old }
{
    let numbers = ordinates(coordinate_values(controls, x));
    store_ordinates(numbers, x, out);
}

// The 57 numbers over the front of the output, one coordinate of all points after the other: the 19 numbers of a
// coordinate are stored before the next are formed, so three arrays are not held at once.
fn write_points(controls: [[[i32; 3]; 3]; 3], out: &mut [i32])
    requires { ((x : ℕ) → x < 3 → Within 16777216 (values_in controls x)) × (57 ≤ length out.old) }
    ensures { out.new
        ≡ over (runs 19 (three_at (points_of (values_in controls 0)) (points_of (values_in controls 1))
        (points_of (values_in controls 2)))) out.old }
{
    for x in 0..3 {
        write_coordinate(controls, x, out);
    }
}

// Whether cell (i, j) is not in the grid. Also for the crates above.
pub fn no_triangle(size: Size, i: usize, j: usize) -> bool
    ensures { result ≡ no_triangle size.w size.h i j }
{
    if size.w - 1 <= i {
        true
    } else {
        size.h - 1 <= j
    }
}

// The first fault, 1, 6, 2, 5 or 3. `room` is the length of the output.
fn bezier_refusal(
    net: &[i32],
    w: usize,
    h: usize,
    i: usize,
    j: usize,
    down: bool,
    room: usize,
) -> Result<(), Refusal>
    ensures { refused result ≡ bezier_refusal net.now w h i j down room }
{
    let size = Size::new(w, h)?;
    if no_triangle(size, i, j) {
        return Err(Refusal::Place);
    }
    if short_net(net, size) {
        return Err(Refusal::Short);
    }
    if room < 57 {
        return Err(Refusal::Room);
    }
    if triangle_beyond(net, w, i, j, down) {
        return Err(Refusal::Range);
    }
    Ok(())
}

// The 19 points of the up or the down triangle of cell (i, j) times 36, in 57 numbers over the front of `out`.
// Mirror images: `MirroredBezier` in `crates/mirror/specs/Promises.antt`.
pub fn bezier_net(
    net: &[i32],
    w: usize,
    h: usize,
    i: usize,
    j: usize,
    down: bool,
    out: &mut [i32],
) -> Result<(), Refusal>
    ensures result_value { call_outcome result ≡ bezier_answer net.now w h i j down (length out.old) }
    ensures out_after { out.new ≡ bezier_output net.now w h i j down out.old }
{
    bezier_refusal(net, w, h, i, j, down, out.len())?;
    let c = reorder_controls(load_triangle(net, w, i, j, down), down);
    write_points(c, out);
    Ok(())
}
