// The control triangles of a triangle's three corners: their range, for `bezier` and `surface`, which have refused
// every triangle that is not in the net; and for `bezier` loading all three, their order, and their nine values in one
// coordinate.
ghost use Rattle.std.specs.Prelude.{◌≡◌, [], ◌∷◌, ◌+◌, ◌≤◌, ◌<◌, length, get_or};
ghost use Rattle.net.specs.Net.{one, two, three, vertex_at, triangle_at, start, entry, stride};
ghost use Rattle.triangles.specs.Corners.{InNet, corner_controls, values_in, reordered_controls};
ghost use Rattle.triangles.specs.Refusals.{vertices_beyond, triangle_beyond};

use net::{load, vertex_beyond};

// Whether one of the numbers of three vertices is outside the net range.
fn vertices_beyond(
    net: &[i32],
    w: usize,
    i1: usize,
    j1: usize,
    i2: usize,
    j2: usize,
    i3: usize,
    j3: usize,
) -> bool
    requires stride_in_bounds { start w (vertex_at i1 j1) + stride ≤ length net.now }
    requires stride_in_bounds_2 { start w (vertex_at i2 j2) + stride ≤ length net.now }
    requires stride_in_bounds_3 { start w (vertex_at i3 j3) + stride ≤ length net.now }
    ensures { result ≡ vertices_beyond net.now w (vertex_at i1 j1) (vertex_at i2 j2) (vertex_at i3 j3) }
{
    if vertex_beyond(net, w, i1, j1) {
        return true;
    }
    if vertex_beyond(net, w, i2, j2) {
        return true;
    }
    vertex_beyond(net, w, i3, j3)
}

// Whether a number of the control points of a triangle's corners is.
pub fn triangle_beyond(net: &[i32], w: usize, i: usize, j: usize, down: bool) -> bool
    requires { InNet net.now w i j }
    ensures { result ≡ triangle_beyond net.now w (triangle_at i j down) }
{
    if down {
        vertices_beyond(net, w, i + 1, j, i, j + 1, i + 1, j + 1)
    } else {
        vertices_beyond(net, w, i, j, i + 1, j, i, j + 1)
    }
}

// The control triangles of the corners, in corner order.
pub fn load_triangle(net: &[i32], w: usize, i: usize, j: usize, down: bool) -> [[[i32; 3]; 3]; 3]
    requires { InNet net.now w i j }
    ensures { result ≡ corner_controls net.now w (triangle_at i j down) }
{
    let b = load(net, w, i + 1, j);
    let c = load(net, w, i, j + 1);
    if down {
        let d = load(net, w, i + 1, j + 1);
        [b, c, d]
    } else {
        let a = load(net, w, i, j);
        [a, b, c]
    }
}

// One coordinate of a control triangle.
fn column(c: [[i32; 3]; 3], x: usize) -> [i32; 3]
    requires { x < 3 }
    ensures { result ≡ entry c one x ∷ entry c two x ∷ entry c three x ∷ [] }
{
    [c[0][x], c[1][x], c[2][x]]
}

// The nine control values in one coordinate, by corner and then c1 to c3.
pub fn coordinate_values(c: [[[i32; 3]; 3]; 3], x: usize) -> [i32; 9]
    requires { x < 3 }
    ensures { result ≡ values_in c x }
{
    let a = column(c[0], x);
    let b = column(c[1], x);
    let d = column(c[2], x);
    [a[0], a[1], a[2], b[0], b[1], b[2], d[0], d[1], d[2]]
}

// The control points of a corner in another order.
fn pick(c: [[i32; 3]; 3], k: usize, n: usize, m: usize) -> [[i32; 3]; 3]
    requires { (k < 3) × (n < 3) × (m < 3) }
    ensures { result ≡ get_or c k [] ∷ get_or c n [] ∷ get_or c m [] ∷ [] }
{
    [c[k], c[n], c[m]]
}

// The control points of each corner in the order ck, cn, cm of document 01's Bézier net.
pub fn reorder_controls(c: [[[i32; 3]; 3]; 3], down: bool) -> [[[i32; 3]; 3]; 3]
    ensures { result ≡ reordered_controls down c }
{
    if down {
        [
            pick(c[0], 1, 0, 2),
            pick(c[1], 0, 2, 1),
            pick(c[2], 2, 1, 0),
        ]
    } else {
        [
            pick(c[0], 0, 1, 2),
            pick(c[1], 1, 2, 0),
            pick(c[2], 2, 0, 1),
        ]
    }
}
