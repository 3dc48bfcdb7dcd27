// A row of the refined net, all of it, and k steps, which alternate between two lent slices. `refine` and
// `refined_point` establish the precondition of `refine_steps`, splitting and merging that of `refine_row`, and callers
// in this file those of the others.
ghost use Rattle.std.specs.Prelude.{◌≡◌, ◌-◌, ◌≤◌, ◌<◌, length};
ghost use Rattle.std.proofs.lemmas.List.Edits.{sets};
ghost use Rattle.exact.specs.Filling.{over, UnchangedFrom};
ghost use Rattle.net.specs.Refusals.{AcceptedNet};
ghost use Rattle.subdivision.specs.Refinement.{refined_side, side_after};
ghost use Rattle.steps.specs.RefinedNet.{refined_fields, row_run, refined_net, numbers_after, scratch_need};
ghost use Rattle.steps.specs.Steps.{StepReady, RowReady};

use crate::pairs::store_pair;
use crate::sizes::{Steps, side_after};
use exact::copy_over;
use net::STRIDE;

// Row j of the refined grid, two vertices at a time, stored from a place on. Also for splitting and merging, which have
// refused every other net and work row by row.
pub fn refine_row(net: &[i32], w: usize, h: usize, j: usize, at: usize, out: &mut [i32])
    requires { RowReady net.now w h j at (length out.old) }
    ensures { out.new
        ≡ sets out.old at (row_run (refined_fields net.now w) (refined_side w) j) }
{
    for m in 0..w {
        store_pair(net, w, h, j, m, at + 2 * STRIDE * m, out);
    }
}

// One refinement of the net over the front of `out`, row by row.
fn refine_once(net: &[i32], w: usize, h: usize, out: &mut [i32])
    requires { StepReady net.now w h out.old }
    ensures { out.new ≡ over (refined_net net.now w h 1) out.old }
{
    let wide = 2 * w - 1;
    let high = 2 * h - 1;
    for j in 0..high {
        refine_row(net, w, h, j, STRIDE * (j * wide), out);
    }
}

// No step, which copies, or one.
fn few_steps(net: &[i32], steps: Steps, out: &mut [i32])
    requires { (steps.k < 2) × AcceptedNet net.now steps.w steps.h
        × (numbers_after steps.k steps.w steps.h ≤ length out.old) }
    ensures { out.new ≡ over (refined_net net.now steps.w steps.h steps.k) out.old }
{
    if steps.k == 0 {
        let n = STRIDE * (steps.w * steps.h);
        copy_over(&net[0..n], out);
    } else {
        refine_once(net, steps.w, steps.h, out);
    }
}

// The last of k steps, of what the steps before it made of a net of width w and height h.
fn last_step(net: &[i32], steps: Steps, out: &mut [i32])
    requires { (1 ≤ steps.k)
        × AcceptedNet net.now (side_after (steps.k - 1) steps.w) (side_after (steps.k - 1) steps.h)
        × (numbers_after steps.k steps.w steps.h ≤ length out.old) }
    ensures { out.new
        ≡ over (refined_net net.now (side_after (steps.k - 1) steps.w) (side_after (steps.k - 1) steps.h) 1)
        out.old }
{
    let m = side_after(steps.w, steps.k - 1);
    let n = side_after(steps.h, steps.k - 1);
    refine_once(net, m, n, out);
}

// The k times refined net over the front of `out`. The net after k - 1 steps goes into `scratch`, with `out` for its
// scratch: so the slices change places at each step, and the last one writes `out`. For `refine` and `refined_points`,
// which have refused every other net and length.
pub fn refine_steps(net: &[i32], steps: Steps, out: &mut [i32], scratch: &mut [i32])
    requires { AcceptedNet net.now steps.w steps.h × (numbers_after steps.k steps.w steps.h ≤ length out.old)
        × (scratch_need steps.k steps.w steps.h ≤ length scratch.old) }
    ensures out_after { out.new ≡ over (refined_net net.now steps.w steps.h steps.k) out.old }
    ensures unchanged_from { UnchangedFrom (scratch_need steps.k steps.w steps.h) scratch.old scratch.new }
{
    if steps.k < 2 {
        few_steps(net, steps, out);
    } else {
        let before = Steps {
            w: steps.w,
            h: steps.h,
            k: steps.k - 1,
        };
        refine_steps(net, before, scratch, out);
        last_step(scratch, steps, out);
    }
}
