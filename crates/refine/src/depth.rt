// The refusals of refining: sides after k steps, lengths and the range.
ghost use Rattle.std.specs.Prelude.{◌≡◌, false, ◌||◌, ltb};
ghost use Rattle.net.specs.Refusals.{first_fault, bad_size};
ghost use Rattle.net.specs.Results.{refused};
ghost use Rattle.steps.specs.RefinedNet.{numbers_after};
ghost use Rattle.refine.specs.Refusals.{too_deep, too_short, size_faults, net_faults};

use net::{Refusal, STRIDE, Size, net_beyond, short_net};
use steps::{Steps, side_after};

// Whether k is above 6 or a refined side above 1,025: k first, before a side is doubled k times.
fn too_deep(size: Size, k: usize) -> bool
    ensures { result ≡ too_deep size.w size.h k }
{
    if 6 < k {
        return true;
    }
    if 1025 < side_after(size.w, k) {
        return true;
    }
    1025 < side_after(size.h, k)
}

// The first of 1 and 4.
pub fn size_refusal(w: usize, h: usize, k: usize) -> Result<(), Refusal>
    ensures { refused result ≡ first_fault (size_faults w h k) }
{
    let size = Size::new(w, h)?;
    if too_deep(size, k) {
        return Err(Refusal::Depth);
    }
    Ok(())
}

// Whether a slice of so many numbers is shorter than the net after the steps.
fn shorter_than(room: usize, steps: Steps) -> bool
    ensures { result ≡ ltb room (numbers_after steps.k steps.w steps.h) }
{
    room < STRIDE * (side_after(steps.w, steps.k) * side_after(steps.h, steps.k))
}

// Whether the output or the scratch is too short.
pub fn too_short(steps: Steps, room: usize, scratch: usize) -> bool
    ensures { result ≡ too_short steps.w steps.h steps.k room scratch }
{
    if shorter_than(room, steps) {
        return true;
    }
    if steps.k < 2 {
        return false;
    }
    let before = Steps {
        w: steps.w,
        h: steps.h,
        k: steps.k - 1,
    };
    shorter_than(scratch, before)
}

// The first of 2, 5 and 3; `short` is whether another output is too short.
pub fn net_refusal(
    net: &[i32],
    steps: Steps,
    short: bool,
    room: usize,
    scratch: usize,
) -> Result<(), Refusal>
    ensures { refused result ≡ first_fault (net_faults net.now steps.w steps.h
        (short || too_short steps.w steps.h steps.k room scratch)) }
{
    let size = Size {
        w: steps.w,
        h: steps.h,
    };
    if short_net(net, size) {
        return Err(Refusal::Short);
    }
    if short || too_short(steps, room, scratch) {
        return Err(Refusal::Room);
    }
    if net_beyond(net, size) {
        return Err(Refusal::Range);
    }
    Ok(())
}
