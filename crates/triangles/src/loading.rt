// One corner's control triangle, by value and in the order ck, cn, cm. For `surface`, which has refused every triangle
// that is not in the net. Places are numbers that an `if` chooses: an array that a variable indexes is put in memory. A
// corner is a number from 0 to 2, since control triangles are taken by it.
ghost use Rattle.std.specs.Prelude.{◌≡◌, [], ◌∷◌, ◌+◌, ◌*◌, ◌≤◌, ◌<◌, length, get_or};
ghost use Rattle.net.specs.Net.{Index, rank, corner, triangle_at, start, control_point, stride, point_stride};
ghost use Rattle.triangles.specs.BezierPoints.{index_k, index_m, index_n};
ghost use Rattle.triangles.specs.Corners.{InNet, corner_controls, reordered_controls};

use net::{POINT_STRIDE, STRIDE, load_point};

// One of three numbers by its place.
fn of_three(p: usize, a: usize, b: usize, c: usize) -> usize
    requires { p < 3 }
    ensures { result ≡ get_or (a ∷ b ∷ c ∷ []) p 0 }
{
    if p == 0 {
        return a;
    }
    if p == 1 { b } else { c }
}

// Where ck stands among the control points of corner p, and cn, and cm.
fn place_k(down: bool, p: usize) -> usize
    requires { p < 3 }
    ensures { (P : Index) → p ≡ rank P → result ≡ rank (index_k down P) }
{
    if down { of_three(p, 1, 0, 2) } else { p }
}

fn place_n(down: bool, p: usize) -> usize
    requires { p < 3 }
    ensures { (P : Index) → p ≡ rank P → result ≡ rank (index_n down P) }
{
    if down {
        of_three(p, 0, 2, 1)
    } else {
        of_three(p, 1, 2, 0)
    }
}

fn place_m(down: bool, p: usize) -> usize
    requires { p < 3 }
    ensures { (P : Index) → p ≡ rank P → result ≡ rank (index_m down P) }
{
    if down {
        of_three(p, 2, 1, 0)
    } else {
        of_three(p, 2, 0, 1)
    }
}

// Where the numbers of corner p begin in the net.
fn corner_start(w: usize, i: usize, j: usize, down: bool, p: usize) -> usize
    requires { (w ≤ 1025) × (i + 1 < w) × (j + 1 < 1025) × (p < 3) }
    ensures { (P : Index) → p ≡ rank P → result ≡ start w (corner (triangle_at i j down) P) }
{
    let first = STRIDE * (j * w + i);
    let right = first + STRIDE;
    let above = first + STRIDE * w;
    if down {
        of_three(p, right, above, above + STRIDE)
    } else {
        of_three(p, first, right, above)
    }
}

// Three control points of the vertex whose numbers begin at a place of the net, by where they stand among them.
fn load_picked(net: &[i32], at: usize, k: usize, n: usize, m: usize) -> [[i32; 3]; 3]
    requires { (at + stride ≤ length net.now) × (k < 3) × (n < 3) × (m < 3) }
    ensures { result ≡ control_point net.now (at + point_stride * k)
        ∷ control_point net.now (at + point_stride * n)
        ∷ control_point net.now (at + point_stride * m) ∷ [] }
{
    let ck = load_point(net, at + POINT_STRIDE * k);
    let cn = load_point(net, at + POINT_STRIDE * n);
    let cm = load_point(net, at + POINT_STRIDE * m);
    [ck, cn, cm]
}

// The control triangle of a corner, counted from 0, in the order ck, cn, cm of document 01's Bézier net. For
// `surface`, whose order of the shares names corners below 3.
pub fn load_corner(
    net: &[i32],
    w: usize,
    i: usize,
    j: usize,
    down: bool,
    corner: usize,
) -> [[i32; 3]; 3]
    requires { InNet net.now w i j × (corner < 3) }
    ensures { result
        ≡ get_or (reordered_controls down (corner_controls net.now w (triangle_at i j down))) corner [] }
{
    let at = corner_start(w, i, j, down, corner);
    let k = place_k(down, corner);
    let n = place_n(down, corner);
    let m = place_m(down, corner);
    load_picked(net, at, k, n, m)
}
