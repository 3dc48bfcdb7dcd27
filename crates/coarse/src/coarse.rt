// The coarse net: the rule at one vertex, the test of its range, and its storage. Splitting establishes the
// preconditions by its refusals.
ghost use Rattle.std.specs.Prelude.{◌≡◌, false, ◌+◌, ◌*◌, ◌≤◌, ◌<◌, pos, nat_abs, ◌+ℤ◌, ◌-ℤ◌, ◌*ℤ◌, length};
ghost use Rattle.std.proofs.lemmas.List.Edits.{sets};
ghost use Rattle.exact.specs.Rounding.{rounded};
ghost use Rattle.exact.specs.Filling.{over};
ghost use Rattle.net.specs.Net.{vertex_at, start, stride, numbers, vertex_numbers};
ghost use Rattle.net.specs.Refusals.{net_limit, any_beyond, PointWithin, ControlsWithin, AcceptedNet};
ghost use Rattle.steps.specs.RefinedNet.{row_run};
ghost use Rattle.coarse.specs.Coarse.{coarse_side, coarse_fields, coarse_net, coarse_controls, coarse_beyond, coarse_point, coarse_triangle};

use exact::{round_even_narrow, weighted_sum};
use net::{STRIDE, controls_beyond, load};
use steps::store_triangle;

// (5c - a - b)/3, rounded once: twice as much over 6, since that divisor is even. Of numbers in the net
// range the quotient is below 3 times the limit in size.
fn coarse_number(c: i32, a: i32, b: i32) -> i32
    requires { (nat_abs c ≤ net_limit) × (nat_abs a ≤ net_limit) × (nat_abs b ≤ net_limit) }
    ensures { result ≡ rounded (pos 5 *ℤ c -ℤ (a +ℤ b)) 3 }
{
    round_even_narrow(weighted_sum([10, -2, -2], [c, a, b]), 3, 50331648)
}

// A coarse control point from its own control point and the other two.
fn coarse_point(c: [i32; 3], a: [i32; 3], b: [i32; 3]) -> [i32; 3]
    requires { PointWithin net_limit c × PointWithin net_limit a × PointWithin net_limit b }
    ensures { result ≡ coarse_point c a b }
{
    let x = coarse_number(c[0], a[0], b[0]);
    let y = coarse_number(c[1], a[1], b[1]);
    let z = coarse_number(c[2], a[2], b[2]);
    [x, y, z]
}

// A coarse control triangle. Indices run in a circle.
fn coarse_triangle(c: [[i32; 3]; 3]) -> [[i32; 3]; 3]
    requires { ControlsWithin net_limit c }
    ensures { result ≡ coarse_triangle c }
{
    let c1 = coarse_point(c[0], c[1], c[2]);
    let c2 = coarse_point(c[1], c[2], c[0]);
    let c3 = coarse_point(c[2], c[0], c[1]);
    [c1, c2, c3]
}

// The control triangle of vertex (i, j) of the coarse net.
fn coarse_vertex(net: &[i32], w: usize, i: usize, j: usize) -> [[i32; 3]; 3]
    requires { (1 ≤ w) × (start w (vertex_at (2 * i) (2 * j)) + stride ≤ length net.now)
        × (any_beyond (vertex_numbers net.now w (vertex_at (2 * i) (2 * j))) ≡ false) }
    ensures { result ≡ coarse_controls net.now w (vertex_at i j) }
{
    let c = load(net, w, 2 * i, 2 * j);
    coarse_triangle(c)
}

// Whether a number of row j of the coarse net is outside the net range. No early return: where a net is split, every
// vertex is tested in any case.
fn coarse_row_beyond(net: &[i32], w: usize, h: usize, j: usize) -> bool
    requires { AcceptedNet net.now w h × (j < coarse_side h) }
    ensures { result ≡ any_beyond (row_run (coarse_fields net.now w) (coarse_side w) j) }
{
    let wide = (w + 1) / 2;
    let mut bad = false;
    for i in 0..wide {
        bad |= controls_beyond(coarse_vertex(net, w, i, j));
    }
    bad
}

// Whether a number of the coarse net is. For splitting, which has refused every other net.
pub fn coarse_beyond(net: &[i32], w: usize, h: usize) -> bool
    requires { AcceptedNet net.now w h }
    ensures { result ≡ coarse_beyond net.now w h }
{
    let high = (h + 1) / 2;
    let mut bad = false;
    for j in 0..high {
        bad |= coarse_row_beyond(net, w, h, j);
    }
    bad
}

// Row j of the coarse net, stored at its place in `coarse`.
fn store_coarse_row(net: &[i32], w: usize, h: usize, j: usize, coarse: &mut [i32])
    requires { AcceptedNet net.now w h × (j < coarse_side h)
        × (numbers (coarse_side w) (coarse_side h) ≤ length coarse.old) }
    ensures { coarse.new ≡ sets coarse.old (stride * (j * coarse_side w))
        (row_run (coarse_fields net.now w) (coarse_side w) j) }
{
    let wide = (w + 1) / 2;
    for i in 0..wide {
        store_triangle(coarse_vertex(net, w, i, j), STRIDE * (j * wide + i), coarse);
    }
}

// The coarse net over the front of `coarse`. For splitting, which has refused every other net and shorter outputs.
pub fn store_coarse(net: &[i32], w: usize, h: usize, coarse: &mut [i32])
    requires { AcceptedNet net.now w h × (numbers (coarse_side w) (coarse_side h) ≤ length coarse.old) }
    ensures { coarse.new ≡ over (coarse_net net.now w h) coarse.old }
{
    let high = (h + 1) / 2;
    for j in 0..high {
        store_coarse_row(net, w, h, j, coarse);
    }
}
