// Splitting and merging in one go: the round trip, held to by the code itself.
ghost use Rattle.multiresolution.specs.Calls.{RoundTrip};

use merge::merge;
use net::{Refusal, too_short_for};
use split::split_with;

// The coarse net over the front of `coarse`, the details over the front of `details`, and the net that these merge to
// over the front of `out`: the net's first 9wh numbers.
pub fn split_and_merge(
    net: &[i32],
    w: usize,
    h: usize,
    coarse: &mut [i32],
    details: &mut [i32],
    out: &mut [i32],
) -> Result<(), Refusal>
    ensures { RoundTrip net.now w h coarse.old details.old out.old result
        coarse.new details.new out.new }
{
    let short = too_short_for(w, h, out.len());
    split_with(net, w, h, short, coarse, details)?;
    merge(coarse, details, (w + 1) / 2, (h + 1) / 2, out)
}
