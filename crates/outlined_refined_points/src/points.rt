// Refining with an outline and then a surface point, in one go: demand 3 on the door, held to by the code itself.
ghost use Rattle.std.specs.Prelude.{◌≡◌, false, ◌≤◌, length};
ghost use Rattle.net.specs.Refusals.{output_after};
ghost use Rattle.outline.specs.Outline.{triangles};
ghost use Rattle.surface.specs.Answers.{point_outcome};
ghost use Rattle.subdivision.specs.Refinement.{side_after};
ghost use Rattle.refined_points.specs.Answers.{refusal_at};
ghost use Rattle.refined_points.specs.Contract.{RefinedPointContract};
ghost use Rattle.fine_outline.specs.FineOutline.{fine_outline};
ghost use Rattle.outlined_refined_points.specs.Contract.{OutlinedPointContract};

use crate::faults::refusal_before;
use fine_outline::write_fine_outline;
use net::{Refusal, Size};
use outline::is_connected;
use refined_points::refined_point;
use steps::Steps;
use surface::Point;

// Plain refining and the point, and then the outline of the refined net over the front of `fine`.
fn point_both(
    net: &[i32],
    steps: Steps,
    outline: &[u8],
    p: usize,
    q: usize,
    out: &mut [i32],
    scratch: &mut [i32],
    fine: &mut [u8],
) -> Result<Point, Refusal>
    requires { (triangles steps.w steps.h ≤ length outline.now)
        × (triangles (side_after steps.k steps.w) (side_after steps.k steps.h) ≤ length fine.old) }
    ensures refined_point_contract { RefinedPointContract net.now steps.w steps.h steps.k p q false out.old
        scratch.old (point_outcome result) out.new scratch.new }
    ensures fine_after { fine.new
        ≡ output_after (refusal_at net.now steps.w steps.h steps.k p q false out.old scratch.old)
        (fine_outline outline.now steps.w steps.h steps.k) fine.old }
{
    let point = refined_point(net, steps.w, steps.h, steps.k, p, q, out, scratch)?;
    write_fine_outline(outline, steps, fine);
    Ok(point)
}

// The same as `refined_point_outlined`, for the crates above: `short` is whether another output that they were lent is
// too short, which is 5 too.
pub fn refined_point_outlined_with(
    net: &[i32],
    w: usize,
    h: usize,
    k: usize,
    outline: &[u8],
    p: usize,
    q: usize,
    short: bool,
    out: &mut [i32],
    scratch: &mut [i32],
    fine: &mut [u8],
    search: &mut [u32],
) -> Result<Point, Refusal>
    ensures { OutlinedPointContract net.now w h k outline.now p q short out.old
        scratch.old fine.old search.old (point_outcome result) out.new
        scratch.new fine.new search.new }
{
    refusal_before(
        net,
        w,
        h,
        k,
        outline,
        p,
        q,
        short,
        out.len(),
        scratch.len(),
        fine.len(),
        search.len(),
    )?;
    if !is_connected(outline, Size { w, h }, search) {
        return Err(Refusal::NotConnected);
    }
    point_both(net, Steps { w, h, k }, outline, p, q, out, scratch, fine)
}

// The net refined by k steps over the front of `out`, its outline over the front of `fine`, and the surface point at
// place (p, q) of the refined grid; or the first of 1, 4, 6, 2, 13, 15, 5, 14, 3. With demand 3: where nothing is
// refused, the answer is a point near the exact spline of the starting net and within its control values.
// Mirror images: `MirroredPoints` in `crates/mirror/specs/Promises.antt`.
pub fn refined_point_outlined(
    net: &[i32],
    w: usize,
    h: usize,
    k: usize,
    outline: &[u8],
    p: usize,
    q: usize,
    out: &mut [i32],
    scratch: &mut [i32],
    fine: &mut [u8],
    search: &mut [u32],
) -> Result<Point, Refusal>
    ensures { OutlinedPointContract net.now w h k outline.now p q false out.old
        scratch.old fine.old search.old (point_outcome result) out.new
        scratch.new fine.new search.new }
{
    refined_point_outlined_with(
        net, w, h, k, outline, p, q, false, out, scratch, fine, search,
    )
}
