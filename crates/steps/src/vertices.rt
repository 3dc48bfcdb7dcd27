// The storage of a control triangle. The loops that store pairs of vertices, splitting and given points establish the
// precondition.
ghost use Rattle.std.specs.Prelude.{◌≡◌, ◌+◌, ◌≤◌, length};
ghost use Rattle.net.specs.Net.{stride};
ghost use Rattle.steps.specs.Steps.{three_points};

use net::{POINT_STRIDE, store_point};

// The numbers of a control triangle, stored from a place on.
pub fn store_triangle(c: [[i32; 3]; 3], at: usize, out: &mut [i32])
    requires { at + stride ≤ length out.old }
    ensures { out.new ≡ three_points out.old at c }
{
    store_point(c[0], at, out);
    store_point(c[1], at + POINT_STRIDE, out);
    store_point(c[2], at + 2 * POINT_STRIDE, out);
}
