// Merging: nothing is written before it is known that nothing is refused.
ghost use Rattle.std.specs.Prelude.{◌≡◌, false};
ghost use Rattle.net.specs.Refusals.{first_fault};
ghost use Rattle.net.specs.Results.{refused};
ghost use Rattle.steps.specs.Steps.{Depth};
ghost use Rattle.merge.specs.Refusals.{short_inputs, inputs_beyond, merge_faults, merge_refusal};
ghost use Rattle.merge.specs.Answers.{MergeContract};

use crate::sums::{merged_beyond, store_merged};
use details::{details_beyond, short_details};
use net::{Refusal, STRIDE, Size, net_beyond, short_net};
use refine::size_refusal;

// Whether the coarse net or the details are too short.
fn short_inputs(coarse: &[i32], details: &[i32], w: usize, h: usize) -> bool
    requires { Depth w h 1 }
    ensures { result ≡ short_inputs coarse.now details.now w h }
{
    if short_net(coarse, Size { w, h }) {
        return true;
    }
    let fine = Size {
        w: 2 * w - 1,
        h: 2 * h - 1,
    };
    short_details(details, fine)
}

// Whether a coarse number or a detail is beyond its range.
fn inputs_beyond(coarse: &[i32], details: &[i32], w: usize, h: usize) -> bool
    requires { Depth w h 1 × (short_inputs coarse.now details.now w h ≡ false) }
    ensures { result ≡ inputs_beyond coarse.now details.now w h }
{
    if net_beyond(coarse, Size { w, h }) {
        return true;
    }
    let fine = Size {
        w: 2 * w - 1,
        h: 2 * h - 1,
    };
    details_beyond(details, fine)
}

// The first of 2, 5, 3 and 11, of a size that 1 and 4 do not refuse.
fn numbers_refusal(
    coarse: &[i32],
    details: &[i32],
    w: usize,
    h: usize,
    room: usize,
) -> Result<(), Refusal>
    requires { Depth w h 1 }
    ensures { refused result ≡ first_fault (merge_faults coarse.now details.now w h room) }
{
    if short_inputs(coarse, details, w, h) {
        return Err(Refusal::Short);
    }
    if room < STRIDE * ((2 * w - 1) * (2 * h - 1)) {
        return Err(Refusal::Room);
    }
    if inputs_beyond(coarse, details, w, h) {
        return Err(Refusal::Range);
    }
    if merged_beyond(coarse, details, w, h) {
        return Err(Refusal::ResultRange);
    }
    Ok(())
}

// The first fault, 1, 4, 2, 5, 3 or 11.
fn merge_refusal(
    coarse: &[i32],
    details: &[i32],
    w: usize,
    h: usize,
    room: usize,
) -> Result<(), Refusal>
    ensures { refused result ≡ merge_refusal coarse.now details.now w h room }
{
    size_refusal(w, h, 1)?;
    numbers_refusal(coarse, details, w, h, room)
}

// One refinement of the coarse net with the details added to it over the front of `out`, or the first of 1, 4, 2, 5, 3,
// 11. Width and height are those of the coarse net.
// Mirror images: `MirroredMerging` in `crates/mirror/specs/Promises.antt`.
pub fn merge(
    coarse: &[i32],
    details: &[i32],
    w: usize,
    h: usize,
    out: &mut [i32],
) -> Result<(), Refusal>
    ensures { MergeContract coarse.now details.now w h out.old result
        out.new }
{
    merge_refusal(coarse, details, w, h, out.len())?;
    store_merged(coarse, details, w, h, out);
    Ok(())
}
