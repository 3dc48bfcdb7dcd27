// Splitting: nothing is written before it is known that nothing is refused.
ghost use Rattle.std.specs.Prelude.{◌≡◌, false, ◌||◌, [], ◌∷◌, take};
ghost use Rattle.net.specs.Net.{numbers};
ghost use Rattle.net.specs.Refusals.{first_fault, short_net, any_outside, net_beyond};
ghost use Rattle.net.specs.Results.{refused};
ghost use Rattle.coarse.specs.Coarse.{coarse_beyond};
ghost use Rattle.split.specs.Refusals.{outputs_short, odd_faults, split_faults, split_refusal};
ghost use Rattle.split.specs.Answers.{SplitContract};

use crate::detail::store_differences;
use coarse::{coarse_beyond, store_coarse};
use details::{DETAIL_STRIDE, even_size};
use net::{Refusal, STRIDE, Size, any_outside, net_beyond, short_net};

// The first of 1 and 10.
pub fn odd_refusal(w: usize, h: usize) -> Result<(), Refusal>
    ensures { refused result ≡ first_fault (odd_faults w h) }
{
    Size::new(w, h)?;
    if even_size(w, h) {
        return Err(Refusal::Even);
    }
    Ok(())
}

// Whether the output for the coarse net or the one for the details, of these lengths, is too short.
fn outputs_short(size: Size, coarse: usize, details: usize) -> bool
    ensures { result ≡ outputs_short size.w size.h coarse details }
{
    if coarse < STRIDE * (((size.w + 1) / 2) * ((size.h + 1) / 2)) {
        return true;
    }
    details < DETAIL_STRIDE * (size.w * size.h)
}

// Whether a number is above 7,190,235 in size, three sevenths of the net's limit. Where none is, neither is a coarse
// one, (5c - a - b)/3, above the limit.
fn any_large(net: &[i32], size: Size) -> bool
    requires { short_net net.now size.w size.h ≡ false }
    ensures { result ≡ any_outside 7190235 (take (numbers size.w size.h) net.now) }
{
    let n = STRIDE * (size.w * size.h);
    any_outside(&net[..n], 7190235)
}

// The first of 3 and 11.
fn range_refusal(net: &[i32], size: Size) -> Result<(), Refusal>
    requires { short_net net.now size.w size.h ≡ false }
    ensures { refused result
        ≡ first_fault ((net_beyond net.now size.w size.h, 3) ∷ (coarse_beyond net.now size.w size.h, 11) ∷ []) }
{
    if net_beyond(net, size) {
        return Err(Refusal::Range);
    }
    if coarse_beyond(net, size.w, size.h) {
        return Err(Refusal::ResultRange);
    }
    Ok(())
}

// The first of 2, 5, 3 and 11; `short` is whether a lent output is too short. The test of the numbers' sizes settles 3
// and 11 for most nets.
fn net_refusal(net: &[i32], size: Size, short: bool) -> Result<(), Refusal>
    ensures { refused result ≡ first_fault (split_faults net.now size.w size.h short) }
{
    if short_net(net, size) {
        return Err(Refusal::Short);
    }
    if short {
        return Err(Refusal::Room);
    }
    if any_large(net, size) {
        return range_refusal(net, size);
    }
    Ok(())
}

// The first fault, 1, 10, 2, 5, 3 or 11, of outputs of these lengths; `short` is whether another lent output is too
// short.
fn split_refusal(
    net: &[i32],
    w: usize,
    h: usize,
    short: bool,
    coarse: usize,
    details: usize,
) -> Result<(), Refusal>
    ensures { refused result ≡ split_refusal net.now w h (short || outputs_short w h coarse details) }
{
    odd_refusal(w, h)?;
    let size = Size { w, h };
    net_refusal(net, size, short || outputs_short(size, coarse, details))
}

// `split` with one more lent output, of the caller's own: `short` is whether it is too short, which counts for 5.
pub fn split_with(
    net: &[i32],
    w: usize,
    h: usize,
    short: bool,
    coarse: &mut [i32],
    details: &mut [i32],
) -> Result<(), Refusal>
    ensures { SplitContract net.now w h short coarse.old details.old result
        coarse.new details.new }
{
    split_refusal(net, w, h, short, coarse.len(), details.len())?;
    store_coarse(net, w, h, coarse);
    store_differences(net, w, h, coarse, details);
    Ok(())
}

// The coarse net over the front of `coarse` and the details over the front of `details`, or the first of 1, 10, 2, 5,
// 3, 11.
// Mirror images: `MirroredSplitting` in `crates/mirror/specs/Promises.antt`.
pub fn split(
    net: &[i32],
    w: usize,
    h: usize,
    coarse: &mut [i32],
    details: &mut [i32],
) -> Result<(), Refusal>
    ensures { SplitContract net.now w h false coarse.old details.old result
        coarse.new details.new }
{
    split_with(net, w, h, false, coarse, details)
}
