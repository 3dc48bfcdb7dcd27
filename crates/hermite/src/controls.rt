// The control triangle of one vertex from its point and its two vectors, formed in 64 bits, where the sums of any three
// i32 fit; the test of its range, and the same in 32 bits. `nets.rt` establishes the preconditions.
ghost use Rattle.std.specs.Prelude.{◌≡◌, false, ◌+◌, ◌*◌, ◌≤◌, ◌+ℤ◌, ◌-ℤ◌, length};
ghost use Rattle.net.specs.Refusals.{beyond, any_beyond, controls_beyond};
ghost use Rattle.hermite.specs.Given.{given_stride, vectors_at};
ghost use Rattle.hermite.specs.Sums.{sum_point, difference_point, sum_triangle, three_of, nine_of};

use crate::records::{GIVEN_STRIDE, VECTOR_STRIDE};
use net::load_point;

// p + t in one coordinate.
fn sum(p: i32, t: i32) -> i64
    ensures { result ≡ p +ℤ t }
{
    p as i64 + t as i64
}

// p - a - b in one coordinate.
fn difference(p: i32, a: i32, b: i32) -> i64
    ensures { result ≡ p -ℤ a -ℤ b }
{
    p as i64 - a as i64 - b as i64
}

// p + t.
fn sum_point(p: [i32; 3], t: [i32; 3]) -> [i64; 3]
    ensures { result ≡ sum_point p t }
{
    let x = sum(p[0], t[0]);
    let y = sum(p[1], t[1]);
    let z = sum(p[2], t[2]);
    [x, y, z]
}

// p - a - b.
fn difference_point(p: [i32; 3], a: [i32; 3], b: [i32; 3]) -> [i64; 3]
    ensures { result ≡ difference_point p a b }
{
    let x = difference(p[0], a[0], b[0]);
    let y = difference(p[1], a[1], b[1]);
    let z = difference(p[2], a[2], b[2]);
    [x, y, z]
}

// c1 = p + t1, c2 = p + t2, c3 = p - t1 - t2 of vertex n, counted from 0. For the loops of `nets.rt`, which stay below
// the count of vertices.
pub fn controls_at(given: &[i32], n: usize) -> [[i64; 3]; 3]
    requires { given_stride * n + given_stride ≤ length given.now }
    ensures { result ≡ sum_triangle (vectors_at given.now (given_stride * n)) }
{
    let at = GIVEN_STRIDE * n;
    let p = load_point(given, at);
    let t1 = load_point(given, at + VECTOR_STRIDE);
    let t2 = load_point(given, at + 2 * VECTOR_STRIDE);
    let c1 = sum_point(p, t1);
    let c2 = sum_point(p, t2);
    let c3 = difference_point(p, t1, t2);
    [c1, c2, c3]
}

// Whether a sum is outside the net range.
fn sum_beyond(z: i64) -> bool
    ensures { result ≡ beyond z }
{
    if z < -16777216 { true } else { 16777216 < z }
}

// Whether one of the sums of a control point is. No early return, as in `net::any_outside`.
fn point_beyond(c: [i64; 3]) -> bool
    ensures { result ≡ any_beyond (three_of c) }
{
    let x = sum_beyond(c[0]);
    let y = sum_beyond(c[1]);
    let z = sum_beyond(c[2]);
    x | (y | z)
}

// Whether one of the sums of a control triangle is.
pub fn triangle_beyond(c: [[i64; 3]; 3]) -> bool
    ensures { result ≡ controls_beyond (nine_of c) }
{
    let c1 = point_beyond(c[0]);
    let c2 = point_beyond(c[1]);
    let c3 = point_beyond(c[2]);
    c1 | (c2 | c3)
}

// A control point in 32 bits.
fn narrow_point(c: [i64; 3]) -> [i32; 3]
    requires { any_beyond (three_of c) ≡ false }
    ensures { result ≡ three_of c }
{
    let x = c[0] as i32;
    let y = c[1] as i32;
    let z = c[2] as i32;
    [x, y, z]
}

// A control triangle in 32 bits. For `store_hermite`, whose triangles have passed `hermite_beyond`.
pub fn narrow_triangle(c: [[i64; 3]; 3]) -> [[i32; 3]; 3]
    requires { controls_beyond (nine_of c) ≡ false }
    ensures { result ≡ nine_of c }
{
    let c1 = narrow_point(c[0]);
    let c2 = narrow_point(c[1]);
    let c3 = narrow_point(c[2]);
    [c1, c2, c3]
}
