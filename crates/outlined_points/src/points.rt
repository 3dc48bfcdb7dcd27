// Surface points and the viewer's points of a net with an outline: the new rows, and then the plain call, which has 5
// and 3 and the point.
ghost use Rattle.std.specs.Prelude.{◌≡◌};
ghost use Rattle.net.specs.Refusals.{first_fault};
ghost use Rattle.net.specs.Results.{refused};
ghost use Rattle.surface.specs.Answers.{point_outcome, view_outcome};
ghost use Rattle.outlined_points.specs.Refusals.{point_faults};
ghost use Rattle.outlined_points.specs.Answers.{outlined_point_answer, outlined_point_answer_with, outlined_view_answer, outlined_view_answer_with};

use door::on_door;
use net::{Refusal, Size};
use outline::outline_refusal;
use places::place_refusal;
use surface::{Point, ViewPoint, surface_point_with};

// The first fault, 1, 6, 2, 13 or 15.
fn point_refusal(
    net: &[i32],
    w: usize,
    h: usize,
    outline: &[u8],
    p: usize,
    q: usize,
) -> Result<(), Refusal>
    ensures { refused result ≡ first_fault (point_faults net.now w h outline.now p q) }
{
    place_refusal(net, w, h, p, q)?;
    let size = Size { w, h };
    outline_refusal(outline, size)?;
    if on_door(outline, size, 1024, p, q) {
        Ok(())
    } else {
        Err(Refusal::OffDoor)
    }
}

// The same as `surface_point_outlined`, for the crates above: `short` is whether an output that they were lent for the
// point is too short, which is 5.
pub fn surface_point_outlined_with(
    net: &[i32],
    w: usize,
    h: usize,
    outline: &[u8],
    p: usize,
    q: usize,
    short: bool,
) -> Result<Point, Refusal>
    ensures { point_outcome result
        ≡ outlined_point_answer_with net.now w h outline.now p q short }
{
    point_refusal(net, w, h, outline, p, q)?;
    surface_point_with(net, w, h, p, q, short)
}

// The surface point at place (p, q) of the door that the outline describes. All of the outline's bytes are tested, so
// the time grows with the net.
// Mirror images: `MirroredPoints` in `crates/mirror/specs/Promises.antt`.
pub fn surface_point_outlined(
    net: &[i32],
    w: usize,
    h: usize,
    outline: &[u8],
    p: usize,
    q: usize,
) -> Result<Point, Refusal>
    ensures { point_outcome result ≡ outlined_point_answer net.now w h outline.now p q }
{
    surface_point_outlined_with(net, w, h, outline, p, q, false)
}

// The same as `view_point_outlined`, for the crates above, with `short` as in `surface_point_outlined_with`.
pub fn view_point_outlined_with(
    net: &[i32],
    w: usize,
    h: usize,
    outline: &[u8],
    p: usize,
    q: usize,
    short: bool,
) -> Result<ViewPoint, Refusal>
    ensures { view_outcome result
        ≡ outlined_view_answer_with net.now w h outline.now p q short }
{
    Ok(surface_point_outlined_with(net, w, h, outline, p, q, short)?.into())
}

// The surface point in millimetres, for the viewer.
// Mirror images: `MirroredPoints` in `crates/mirror/specs/Promises.antt`.
pub fn view_point_outlined(
    net: &[i32],
    w: usize,
    h: usize,
    outline: &[u8],
    p: usize,
    q: usize,
) -> Result<ViewPoint, Refusal>
    ensures { view_outcome result ≡ outlined_view_answer net.now w h outline.now p q }
{
    view_point_outlined_with(net, w, h, outline, p, q, false)
}
