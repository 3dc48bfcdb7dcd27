// Splitting, cleaning and merging in one go: how far a cleaned net moves, held to by the code itself.
ghost use Rattle.std.specs.Prelude.{◌≡◌, [], ◌∷◌, ◌++◌};
ghost use Rattle.net.specs.Refusals.{first_fault};
ghost use Rattle.net.specs.Results.{refused};
ghost use Rattle.details.specs.Refusals.{too_great};
ghost use Rattle.details.specs.Cleaning.{clean_output};
ghost use Rattle.coarse.specs.Coarse.{coarse_side};
ghost use Rattle.split.specs.Refusals.{odd_faults};
ghost use Rattle.merge.specs.Answers.{MergeContract};
ghost use Rattle.multiresolution.specs.Calls.{CleanedNet};

use details::{clean, too_great};
use merge::merge;
use net::{Refusal, Size, too_short_for};
use split::{odd_refusal, split_with};

// The first of 1, 10 and 12.
fn threshold_refusal(w: usize, h: usize, t: u32) -> Result<(), Refusal>
    ensures { refused result ≡ first_fault (odd_faults w h ++ (too_great t, 12) ∷ []) }
{
    odd_refusal(w, h)?;
    if too_great(t) {
        return Err(Refusal::Threshold);
    }
    Ok(())
}

// Details cleaned in place, and then merged. For `clean_net`, whose details and threshold cleaning accepts.
fn clean_and_merge(
    coarse: &[i32],
    details: &mut [i32],
    size: Size,
    t: u32,
    out: &mut [i32],
) -> Result<(), Refusal>
    ensures details_after { details.new ≡ clean_output details.old size.w size.h t }
    ensures merge_contract { MergeContract coarse.now (clean_output details.old size.w size.h t)
        (coarse_side size.w) (coarse_side size.h) out.old result out.new }
{
    let _ = clean(details, size.w, size.h, t);
    merge(coarse, details, (size.w + 1) / 2, (size.h + 1) / 2, out)
}

// The coarse net over the front of `coarse`, the details over the front of `details` and cleaned there, and the net
// that these merge to over the front of `out`. No number of it is t or more from the net's, t above 0.
pub fn clean_net(
    net: &[i32],
    w: usize,
    h: usize,
    t: u32,
    coarse: &mut [i32],
    details: &mut [i32],
    out: &mut [i32],
) -> Result<(), Refusal>
    ensures { CleanedNet net.now w h t coarse.old details.old out.old result
        coarse.new details.new out.new }
{
    threshold_refusal(w, h, t)?;
    let short = too_short_for(w, h, out.len());
    split_with(net, w, h, short, coarse, details)?;
    clean_and_merge(coarse, details, Size { w, h }, t, out)
}
