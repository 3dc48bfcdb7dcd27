// Refining by k steps: nothing is written before it is known that nothing is refused.
ghost use Rattle.std.specs.Prelude.{◌≡◌};
ghost use Rattle.net.specs.Results.{refused, call_outcome};
ghost use Rattle.refine.specs.Refusals.{too_short, refine_refusal};
ghost use Rattle.refine.specs.Answers.{refine_answer, refine_output, RefineScratch};

use crate::depth::{net_refusal, size_refusal};
use net::Refusal;
use steps::{Steps, refine_steps};

// The first fault, 1, 4, 2, 5 or 3.
fn refusal_of(
    net: &[i32],
    w: usize,
    h: usize,
    k: usize,
    room: usize,
    scratch: usize,
) -> Result<(), Refusal>
    ensures { refused result ≡ refine_refusal net.now w h k (too_short w h k room scratch) }
{
    size_refusal(w, h, k)?;
    net_refusal(net, Steps { w, h, k }, false, room, scratch)
}

// The k times refined net over the front of `out`, or the first of 1, 4, 2, 5, 3. When k is 2 or more, the first
// numbers of `scratch` up to the size after k - 1 steps are free afterwards.
// Mirror images: `MirroredRefining` in `crates/mirror/specs/Promises.antt`.
pub fn refine(
    net: &[i32],
    w: usize,
    h: usize,
    k: usize,
    out: &mut [i32],
    scratch: &mut [i32],
) -> Result<(), Refusal>
    ensures result_value { call_outcome result
        ≡ refine_answer net.now w h k out.old scratch.old }
    ensures out_after { out.new
        ≡ refine_output net.now w h k out.old scratch.old }
    ensures refine_scratch { RefineScratch net.now w h k out.old scratch.old
        scratch.new }
{
    refusal_of(net, w, h, k, out.len(), scratch.len())?;
    refine_steps(net, Steps { w, h, k }, out, scratch);
    Ok(())
}
