// Refining with an outline: nothing is written but the search before it is known that nothing is refused.
ghost use Rattle.std.specs.Prelude.{◌≡◌, ◌≤◌, length};
ghost use Rattle.net.specs.Refusals.{output_after};
ghost use Rattle.net.specs.Results.{call_outcome};
ghost use Rattle.outline.specs.Outline.{triangles};
ghost use Rattle.subdivision.specs.Refinement.{side_after};
ghost use Rattle.fine_outline.specs.FineOutline.{fine_outline};
ghost use Rattle.refine.specs.Answers.{refusal_of, refine_answer, refine_output, RefineScratch};
ghost use Rattle.outlined_refine.specs.Answers.{faults_of, outlined_refusal_of, outlined_answer, OutlinedLeft};

use crate::faults::refusal_before;
use fine_outline::write_fine_outline;
use net::{Refusal, Size};
use outline::is_connected;
use refine::refine;
use steps::Steps;

// Plain refining, and then the outline of the refined net over the front of `fine`.
fn refine_both(
    net: &[i32],
    steps: Steps,
    outline: &[u8],
    out: &mut [i32],
    scratch: &mut [i32],
    fine: &mut [u8],
) -> Result<(), Refusal>
    requires { (triangles steps.w steps.h ≤ length outline.now)
        × (triangles (side_after steps.k steps.w) (side_after steps.k steps.h) ≤ length fine.old) }
    ensures result_value { call_outcome result
        ≡ refine_answer net.now steps.w steps.h steps.k out.old scratch.old }
    ensures out_after { out.new
        ≡ refine_output net.now steps.w steps.h steps.k out.old scratch.old }
    ensures refine_scratch { RefineScratch net.now steps.w steps.h steps.k out.old scratch.old
        scratch.new }
    ensures fine_after { fine.new
        ≡ output_after (refusal_of net.now steps.w steps.h steps.k out.old scratch.old)
        (fine_outline outline.now steps.w steps.h steps.k) fine.old }
{
    refine(net, steps.w, steps.h, steps.k, out, scratch)?;
    write_fine_outline(outline, steps, fine);
    Ok(())
}

// The k times refined net over the front of `out` and its outline over the front of `fine`, or the first of 1, 4, 2,
// 13, 5, 14, 3. Where no fault before 14 is there, the first numbers of `search`, one a triangle of the net, are free
// afterwards; `scratch` is as in `refine`.
// Mirror images: `MirroredOutlinedRefining` in `crates/mirror/specs/Promises.antt`.
pub fn refine_outlined(
    net: &[i32],
    w: usize,
    h: usize,
    k: usize,
    outline: &[u8],
    out: &mut [i32],
    scratch: &mut [i32],
    fine: &mut [u8],
    search: &mut [u32],
) -> Result<(), Refusal>
    ensures result_value { call_outcome result ≡ outlined_answer net.now w h k outline.now out.old
        scratch.old fine.old search.old }
    ensures outlined_left { OutlinedLeft
        (outlined_refusal_of net.now w h k outline.now out.old scratch.old
        fine.old search.old)
        (faults_of net.now w h k outline.now out.old scratch.old
        fine.old search.old)
        net.now w h k outline.now out.old scratch.old fine.old
        search.old out.new scratch.new fine.new search.new }
{
    refusal_before(
        net,
        w,
        h,
        k,
        outline,
        out.len(),
        scratch.len(),
        fine.len(),
        search.len(),
    )?;
    if !is_connected(outline, Size { w, h }, search) {
        return Err(Refusal::NotConnected);
    }
    refine_both(net, Steps { w, h, k }, outline, out, scratch, fine)
}
