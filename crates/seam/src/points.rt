// The two points of a seam: the net refined to two depths, and the surface points of both at the same place.
ghost use Rattle.std.specs.Prelude.{◌≡◌, false};
ghost use Rattle.seam.specs.Answers.{seam_outcome, seam_answer, SeamHolds};
ghost use Rattle.seam.specs.Contract.{SeamLeft};

use crate::faults::places_refusal;
use net::Refusal;
use refine::too_short;
use refined_points::{refined_point, refined_point_with};
use steps::Steps;
use surface::Point;

// The same as `seam_points`, for the crates above: `short` is whether another output that they were lent is too short,
// which is 5 too. The second point, with what the first lacks of room, finds 2, 5 and 3 before anything is written:
// past it the first is refused nothing.
pub fn seam_points_with(
    net: &[i32],
    w: usize,
    h: usize,
    k: usize,
    l: usize,
    p: usize,
    q: usize,
    p2: usize,
    q2: usize,
    short: bool,
    out: &mut [i32],
    scratch: &mut [i32],
    out2: &mut [i32],
    scratch2: &mut [i32],
) -> Result<(Point, Point), Refusal>
    ensures result_value { seam_outcome result ≡ seam_answer net.now w h k l p q p2 q2 short out.old
        scratch.old out2.old scratch2.old }
    ensures seam_left { SeamLeft (seam_outcome result).0 net.now w h k l out.old scratch.old
        out2.old scratch2.old out.new scratch.new out2.new
        scratch2.new }
    ensures seam_holds { (seam_outcome result).0 ≡ 0
        → SeamHolds net.now w h k l p q p2 q2 (seam_outcome result).0 (seam_outcome result).1 }
{
    places_refusal(w, h, k, l, p, q, p2, q2)?;
    let first_short = too_short(Steps { w, h, k }, out.len(), scratch.len());
    let second = refined_point_with(net, w, h, l, p2, q2, short | first_short, out2, scratch2)?;
    let first = refined_point(net, w, h, k, p, q, out, scratch)?;
    Ok((first, second))
}

// The net refined by k steps over the front of `out` and by l steps over the front of `out2`, and the surface points of
// both at place (p, q) of the first grid and (p2, q2) of the second, which are the same place of the net; or the first
// of 1, 4, 6, 2, 5, 3. Where nothing is refused, the points differ by at most (k + l + 2)/2 units in each coordinate.
pub fn seam_points(
    net: &[i32],
    w: usize,
    h: usize,
    k: usize,
    l: usize,
    p: usize,
    q: usize,
    p2: usize,
    q2: usize,
    out: &mut [i32],
    scratch: &mut [i32],
    out2: &mut [i32],
    scratch2: &mut [i32],
) -> Result<(Point, Point), Refusal>
    ensures result_value { seam_outcome result ≡ seam_answer net.now w h k l p q p2 q2 false out.old
        scratch.old out2.old scratch2.old }
    ensures seam_left { SeamLeft (seam_outcome result).0 net.now w h k l out.old scratch.old
        out2.old scratch2.old out.new scratch.new out2.new
        scratch2.new }
    ensures seam_holds { (seam_outcome result).0 ≡ 0
        → SeamHolds net.now w h k l p q p2 q2 (seam_outcome result).0 (seam_outcome result).1 }
{
    seam_points_with(
        net, w, h, k, l, p, q, p2, q2, false, out, scratch, out2, scratch2,
    )
}
