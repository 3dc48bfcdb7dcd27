// The two points that the call answers, in a lent output.
ghost use Rattle.std.specs.Prelude.{◌≡◌, [], ◌∷◌, ◌≤◌, length};
ghost use Rattle.exact.specs.Filling.{over};

use net::store_point;
use surface::Point;

// The six coordinates over the front of `out`. For `ups`, which has refused an output that is too short.
pub fn store_points(first: Point, second: Point, out: &mut [i32])
    requires { 6 ≤ length out.old }
    ensures { out.new
        ≡ over (first.x ∷ first.y ∷ first.z ∷ second.x ∷ second.y ∷ second.z ∷ []) out.old }
{
    store_point([first.x, first.y, first.z], 0, out);
    store_point([second.x, second.y, second.z], 3, out);
}
