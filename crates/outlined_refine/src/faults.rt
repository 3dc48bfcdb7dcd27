// The refusals of refining with an outline that come before the search.
ghost use Rattle.std.specs.Prelude.{◌≡◌};
ghost use Rattle.net.specs.Refusals.{first_fault};
ghost use Rattle.net.specs.Results.{refused};
ghost use Rattle.outlined_refine.specs.Refusals.{outlined_short, faults_before};

use net::{Refusal, Size};
use outline::{count_triangles, outlined_refusal};
use refine::{size_refusal, too_short};
use steps::{Steps, side_after};

// Whether the output, the scratch net, the fine outline or the search is too short. Also
// for `outlined_refined_points`.
pub fn outlined_short(steps: Steps, room: usize, scratch: usize, fine: usize, search: usize) -> bool
    ensures { result ≡ outlined_short steps.w steps.h steps.k room scratch fine search }
{
    if too_short(steps, room, scratch) {
        return true;
    }
    let m = side_after(steps.w, steps.k);
    let n = side_after(steps.h, steps.k);
    if fine < count_triangles(Size { w: m, h: n }) {
        return true;
    }
    let size = Size {
        w: steps.w,
        h: steps.h,
    };
    search < count_triangles(size)
}

// The first of 1, 4, 2, 13 and 5.
pub fn refusal_before(
    net: &[i32],
    w: usize,
    h: usize,
    k: usize,
    outline: &[u8],
    room: usize,
    scratch: usize,
    fine: usize,
    search: usize,
) -> Result<(), Refusal>
    ensures { refused result ≡ first_fault (faults_before net.now w h k outline.now
        (outlined_short w h k room scratch fine search)) }
{
    size_refusal(w, h, k)?;
    outlined_refusal(net, Size { w, h }, outline)?;
    if outlined_short(Steps { w, h, k }, room, scratch, fine, search) {
        return Err(Refusal::Room);
    }
    Ok(())
}
