// The refusals of refining with an outline and then a point that come before the search.
ghost use Rattle.std.specs.Prelude.{◌≡◌, false, ◌||◌, [], ◌∷◌, ◌++◌, ◌≤◌};
ghost use Rattle.net.specs.Refusals.{first_fault};
ghost use Rattle.net.specs.Results.{refused};
ghost use Rattle.outline.specs.Refusals.{outlined_faults};
ghost use Rattle.bounds.specs.DemandThree.{fine_edge};
ghost use Rattle.refined_points.specs.Refusals.{off_grid};
ghost use Rattle.outlined_refine.specs.Refusals.{outlined_short};
ghost use Rattle.outlined_refined_points.specs.Refusals.{off_door, point_faults_before};

use door::on_door;
use net::{Refusal, Size};
use outline::outlined_refusal;
use outlined_refine::outlined_short;
use refine::size_refusal;
use refined_points::off_grid;
use steps::Steps;

// 1024·2^k: the edge count of the starting net at which places of the refined grid are counted.
fn fine_edge(k: usize) -> usize
    requires { k ≤ 6 }
    ensures { result ≡ fine_edge k }
{
    1024 << k
}

// The first of 2, 13 and 15. The place is one of the refined grid.
fn door_refusal(
    net: &[i32],
    steps: Steps,
    outline: &[u8],
    p: usize,
    q: usize,
) -> Result<(), Refusal>
    requires { off_grid steps.w steps.h steps.k p q ≡ false }
    ensures { refused result ≡ first_fault (outlined_faults net.now steps.w steps.h outline.now
        ++ (off_door steps.k outline.now steps.w steps.h p q, 15) ∷ []) }
{
    let size = Size {
        w: steps.w,
        h: steps.h,
    };
    outlined_refusal(net, size, outline)?;
    if on_door(outline, size, fine_edge(steps.k), p, q) {
        Ok(())
    } else {
        Err(Refusal::OffDoor)
    }
}

// The first of 1, 4, 6, 2, 13, 15 and 5; `short` is whether another output is too short.
pub fn refusal_before(
    net: &[i32],
    w: usize,
    h: usize,
    k: usize,
    outline: &[u8],
    p: usize,
    q: usize,
    short: bool,
    room: usize,
    scratch: usize,
    fine: usize,
    search: usize,
) -> Result<(), Refusal>
    ensures { refused result ≡ first_fault (point_faults_before net.now w h k outline.now p q
        (short || outlined_short w h k room scratch fine search)) }
{
    size_refusal(w, h, k)?;
    let steps = Steps { w, h, k };
    if off_grid(steps, p, q) {
        return Err(Refusal::Place);
    }
    door_refusal(net, steps, outline, p, q)?;
    if short || outlined_short(steps, room, scratch, fine, search) {
        return Err(Refusal::Room);
    }
    Ok(())
}
