// The control triangles of all vertices: the test of their range, and their storage. `interpolation.rt` establishes the
// preconditions by its refusals.
ghost use Rattle.std.specs.Prelude.{◌≡◌, ◌≤◌, length};
ghost use Rattle.exact.specs.Filling.{over};
ghost use Rattle.net.specs.Net.{numbers};
ghost use Rattle.hermite.specs.HermiteNet.{hermite_net};
ghost use Rattle.hermite.specs.Refusals.{hermite_beyond, Enough, Fitting};

use crate::controls::{controls_at, narrow_triangle, triangle_beyond};
use net::STRIDE;
use steps::store_triangle;

// Whether a control value of the net is outside the net range. Nothing is written yet, so each control triangle is
// worked out here and dropped. For `given_refusal`, once 1 and 2 are ruled out.
pub fn hermite_beyond(given: &[i32], w: usize, h: usize) -> bool
    requires { Enough given.now w h }
    ensures { result ≡ hermite_beyond given.now w h }
{
    for n in 0..w * h {
        if triangle_beyond(controls_at(given, n)) {
            return true;
        }
    }
    false
}

// The net over the front of `out`. For `from_points`, where nothing is refused.
pub fn store_hermite(given: &[i32], w: usize, h: usize, out: &mut [i32])
    requires { Fitting given.now w h × (numbers w h ≤ length out.old) }
    ensures { out.new ≡ over (hermite_net given.now w h) out.old }
{
    for n in 0..w * h {
        let c = narrow_triangle(controls_at(given, n));
        store_triangle(c, STRIDE * n, out);
    }
}
