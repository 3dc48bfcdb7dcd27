// Control points and control triangles in lent memory: loading and storing them by value, and the test of their range.
ghost use Rattle.std.specs.Prelude.{◌≡◌, ◌+◌, ◌≤◌, length};
ghost use Rattle.std.proofs.lemmas.List.Edits.{sets};
ghost use Rattle.net.specs.Net.{control_point, control_triangle, vertex_at, stride, numbers, start, vertex_numbers};
ghost use Rattle.net.specs.Refusals.{outside, any_outside, beyond, any_beyond, controls_beyond, net_beyond};

use crate::records::{POINT_STRIDE, STRIDE};
use crate::sizes::Size;

// The control point that begins at a place of the net. For the crates above, which have refused every net that is too
// short.
pub fn load_point(net: &[i32], at: usize) -> [i32; 3]
    requires { at + 3 ≤ length net.now }
    ensures { result ≡ control_point net.now at }
{
    let x = net[at];
    let y = net[at + 1];
    let z = net[at + 2];
    [x, y, z]
}

// The control triangle of vertex (i, j). For the crates above, which have refused every vertex that is not in the net.
pub fn load(net: &[i32], w: usize, i: usize, j: usize) -> [[i32; 3]; 3]
    requires { start w (vertex_at i j) + stride ≤ length net.now }
    ensures { result ≡ control_triangle net.now w (vertex_at i j) }
{
    let at = STRIDE * (j * w + i);
    let c1 = load_point(net, at);
    let c2 = load_point(net, at + POINT_STRIDE);
    let c3 = load_point(net, at + 2 * POINT_STRIDE);
    [c1, c2, c3]
}

// A control point stored from a place on. For the crates above, which have refused every output that is too short.
pub fn store_point<T: Copy>(point: [T; 3], at: usize, out: &mut [T])
    requires { at + 3 ≤ length out.old }
    ensures { out.new ≡ sets out.old at point }
{
    let x = point[0];
    let y = point[1];
    let z = point[2];
    out[at] = x;
    out[at + 1] = y;
    out[at + 2] = z;
}

// Whether a number is above a limit in size. Both ends are compared with: the least i32 has no size that fits.
fn number_outside(z: i32, limit: u32) -> bool
    requires { limit ≤ 33554432 }
    ensures { result ≡ outside limit z }
{
    let most = limit as i32;
    if z < -most { true } else { most < z }
}

// Whether a number is outside the net range.
pub fn number_beyond(z: i32) -> bool
    ensures { result ≡ beyond z }
{
    number_outside(z, 16777216)
}

// Whether one of the numbers is above a limit in size, the net's, the details', 2 to the power 25, or one below. No
// early return: the compiler tests several at once, and a vertex's nine numbers without a branch. Also for `details`,
// `split` and `merge`, whose limits are constants.
pub fn any_outside(numbers: &[i32], limit: u32) -> bool
    requires { limit ≤ 33554432 }
    ensures { result ≡ any_outside limit numbers.now }
{
    let mut bad = false;
    for &z in numbers {
        bad |= number_outside(z, limit);
    }
    bad
}

// Whether one of the numbers is outside the net range.
pub fn any_beyond(numbers: &[i32]) -> bool
    ensures { result ≡ any_beyond numbers.now }
{
    any_outside(numbers, 16777216)
}

// Whether one of the numbers of a control point is.
fn point_beyond(point: [i32; 3]) -> bool
    ensures { result ≡ any_beyond point }
{
    any_beyond(&point)
}

// Whether one of the numbers of a control triangle is.
pub fn controls_beyond(c: [[i32; 3]; 3]) -> bool
    ensures { result ≡ controls_beyond c }
{
    let one = point_beyond(c[0]);
    let two = point_beyond(c[1]);
    let three = point_beyond(c[2]);
    one | (two | three)
}

// Whether one of the numbers of a whole net is. For the crates above, which have refused every net that is too short.
pub fn net_beyond(net: &[i32], size: Size) -> bool
    requires { numbers size.w size.h ≤ length net.now }
    ensures { result ≡ net_beyond net.now size.w size.h }
{
    let n = STRIDE * (size.w * size.h);
    any_beyond(&net[0..n])
}

// Whether one of the numbers of vertex (i, j) is. For the crates above, which have refused every vertex that is not in
// the net.
pub fn vertex_beyond(net: &[i32], w: usize, i: usize, j: usize) -> bool
    requires { start w (vertex_at i j) + stride ≤ length net.now }
    ensures { result ≡ any_beyond (vertex_numbers net.now w (vertex_at i j)) }
{
    let at = STRIDE * (j * w + i);
    any_beyond(&net[at..at + STRIDE])
}
