// Refining and then a surface point, in one go: demand 3, held to by the code itself.
ghost use Rattle.std.specs.Prelude.{◌≡◌, false, ◌||◌};
ghost use Rattle.net.specs.Results.{refused};
ghost use Rattle.surface.specs.Answers.{point_outcome};
ghost use Rattle.refine.specs.Refusals.{too_short};
ghost use Rattle.refined_points.specs.Refusals.{off_grid, refined_point_refusal};
ghost use Rattle.refined_points.specs.Contract.{RefinedPointContract};

use net::Refusal;
use refine::{net_refusal, size_refusal};
use steps::{Steps, refine_steps, side_after};
use surface::{Point, surface_point};

// Whether place (p, q) is off the refined grid. For the crates above too.
pub fn off_grid(steps: Steps, p: usize, q: usize) -> bool
    ensures { result ≡ off_grid steps.w steps.h steps.k p q }
{
    if 1024 * (side_after(steps.w, steps.k) - 1) < p {
        return true;
    }
    1024 * (side_after(steps.h, steps.k) - 1) < q
}

// The first fault, 1, 4, 6, 2, 5 or 3.
fn refusal_at(
    net: &[i32],
    w: usize,
    h: usize,
    k: usize,
    p: usize,
    q: usize,
    short: bool,
    room: usize,
    scratch: usize,
) -> Result<(), Refusal>
    ensures { refused result ≡ refined_point_refusal net.now w h k p q (short || too_short w h k room scratch) }
{
    size_refusal(w, h, k)?;
    let steps = Steps { w, h, k };
    if off_grid(steps, p, q) {
        return Err(Refusal::Place);
    }
    net_refusal(net, steps, short, room, scratch)
}

// The same as `refined_point`, for the crates above: `short` is whether another output that they were lent is too
// short, which is 5 too. Every call that refines and answers a point goes through this one, so demand 3 is stated here.
pub fn refined_point_with(
    net: &[i32],
    w: usize,
    h: usize,
    k: usize,
    p: usize,
    q: usize,
    short: bool,
    out: &mut [i32],
    scratch: &mut [i32],
) -> Result<Point, Refusal>
    ensures { RefinedPointContract net.now w h k p q short out.old scratch.old
        (point_outcome result) out.new scratch.new }
{
    refusal_at(net, w, h, k, p, q, short, out.len(), scratch.len())?;
    refine_steps(net, Steps { w, h, k }, out, scratch);
    let m = side_after(w, k);
    let n = side_after(h, k);
    surface_point(out, m, n, p, q)
}

// The net refined by k steps over the front of `out`, and the surface point at place (p, q) of the refined grid; or the
// first of 1, 4, 6, 2, 5, 3. With demand 3: where nothing is refused, the answer is a point near the exact spline of
// the starting net and within its control values.
// Mirror images: `MirroredPoints` in `crates/mirror/specs/Promises.antt`.
pub fn refined_point(
    net: &[i32],
    w: usize,
    h: usize,
    k: usize,
    p: usize,
    q: usize,
    out: &mut [i32],
    scratch: &mut [i32],
) -> Result<Point, Refusal>
    ensures { RefinedPointContract net.now w h k p q false out.old scratch.old
        (point_outcome result) out.new scratch.new }
{
    refined_point_with(net, w, h, k, p, q, false, out, scratch)
}
