// The refusals of the two points of a seam by depths and places. Callers in this file establish the preconditions.
ghost use Rattle.std.specs.Prelude.{◌≡◌, false, ◌≤◌};
ghost use Rattle.net.specs.Refusals.{first_fault, bad_size};
ghost use Rattle.net.specs.Results.{refused};
ghost use Rattle.refine.specs.Refusals.{too_deep};
ghost use Rattle.seam.specs.Refusals.{other_place, depth_faults, no_seam_place, places_faults};

use net::Refusal;
use refine::size_refusal;
use refined_points::off_grid;
use steps::Steps;

// The first of 1 and 4 of either depth.
fn depth_refusal(w: usize, h: usize, k: usize, l: usize) -> Result<(), Refusal>
    ensures { refused result ≡ first_fault (depth_faults w h k l) }
{
    size_refusal(w, h, k)?;
    size_refusal(w, h, l)
}

// Whether place (p, q) after k steps and place (p2, q2) after l steps are not the same place of the net. The places are
// of their grids, so no product overflows.
fn other_place(k: usize, l: usize, p: usize, q: usize, p2: usize, q2: usize) -> bool
    requires { (k ≤ 6) × (l ≤ 6) × (p ≤ 1048576) × (q ≤ 1048576) × (p2 ≤ 1048576) × (q2 ≤ 1048576) }
    ensures { result ≡ other_place k l p q p2 q2 }
{
    if p << l != p2 << k {
        return true;
    }
    q << l != q2 << k
}

// Whether 6 refuses the places: either is off its grid, or they are not the same place.
fn no_seam_place(
    w: usize,
    h: usize,
    k: usize,
    l: usize,
    p: usize,
    q: usize,
    p2: usize,
    q2: usize,
) -> bool
    requires { (bad_size w h ≡ false) × (too_deep w h k ≡ false) × (too_deep w h l ≡ false) }
    ensures { result ≡ no_seam_place w h k l p q p2 q2 }
{
    if off_grid(Steps { w, h, k }, p, q) {
        return true;
    }
    if off_grid(Steps { w, h, k: l }, p2, q2) {
        return true;
    }
    other_place(k, l, p, q, p2, q2)
}

// The first of 1, 4 and 6.
pub fn places_refusal(
    w: usize,
    h: usize,
    k: usize,
    l: usize,
    p: usize,
    q: usize,
    p2: usize,
    q2: usize,
) -> Result<(), Refusal>
    ensures { refused result ≡ first_fault (places_faults w h k l p q p2 q2) }
{
    depth_refusal(w, h, k, l)?;
    if no_seam_place(w, h, k, l, p, q, p2, q2) {
        return Err(Refusal::Place);
    }
    Ok(())
}
