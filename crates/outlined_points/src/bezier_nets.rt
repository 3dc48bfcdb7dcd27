// Bézier nets of a net with an outline: the new rows, and then the plain call, which has 5 and 3 and writes the net.
ghost use Rattle.std.specs.Prelude.{◌≡◌, length};
ghost use Rattle.net.specs.Refusals.{first_fault};
ghost use Rattle.net.specs.Results.{refused, call_outcome};
ghost use Rattle.outline.specs.Outline.{present};
ghost use Rattle.outlined_points.specs.Refusals.{triangle_by, bezier_faults};
ghost use Rattle.outlined_points.specs.Rows.{triangle_faults, AskedTriangle};
ghost use Rattle.outlined_points.specs.Answers.{outlined_bezier_answer, outlined_bezier_output};

use bezier::{bezier_net, no_triangle};
use net::{Refusal, Size, short_net};
use outline::outline_refusal;

// The first fault of the net and of the asked triangle, 1, 6 or 2. `down` is a number, as C hands it in: 6 refuses what
// is neither 0 nor 1.
fn triangle_refusal(
    net: &[i32],
    w: usize,
    h: usize,
    i: usize,
    j: usize,
    down: u32,
) -> Result<(), Refusal>
    ensures { refused result ≡ first_fault (triangle_faults net.now w h i j down) }
{
    let size = Size::new(w, h)?;
    if no_triangle(size, i, j) || 1 < down {
        return Err(Refusal::Place);
    }
    if short_net(net, size) {
        return Err(Refusal::Short);
    }
    Ok(())
}

// Whether the asked triangle is present.
fn is_present(outline: &[u8], w: usize, h: usize, i: usize, j: usize, down: u32) -> bool
    requires { AskedTriangle outline.now w h i j down }
    ensures { result ≡ present outline.now w (triangle_by i j down) }
{
    outline[2 * (j * (w - 1) + i) + down as usize] == 1
}

// The first fault, 1, 6, 2, 13 or 15.
fn bezier_refusal(
    net: &[i32],
    w: usize,
    h: usize,
    outline: &[u8],
    i: usize,
    j: usize,
    down: u32,
) -> Result<(), Refusal>
    ensures { refused result ≡ first_fault (bezier_faults net.now w h outline.now i j down) }
{
    triangle_refusal(net, w, h, i, j, down)?;
    outline_refusal(outline, Size { w, h })?;
    if is_present(outline, w, h, i, j, down) {
        Ok(())
    } else {
        Err(Refusal::OffDoor)
    }
}

// The 19 points of a present triangle of cell (i, j) times 36, in 57 numbers over the front of `out`. `down` is 0 for
// the up triangle and 1 for the down triangle.
// Mirror images: `MirroredOutlinedBezier` in `crates/mirror/specs/Promises.antt`.
pub fn bezier_net_outlined(
    net: &[i32],
    w: usize,
    h: usize,
    outline: &[u8],
    i: usize,
    j: usize,
    down: u32,
    out: &mut [i32],
) -> Result<(), Refusal>
    ensures result_value { call_outcome result ≡ outlined_bezier_answer net.now w h outline.now i j down
        (length out.old) }
    ensures out_after { out.new ≡ outlined_bezier_output net.now w h outline.now i j down
        out.old }
{
    bezier_refusal(net, w, h, outline, i, j, down)?;
    bezier_net(net, w, h, i, j, down == 1, out)
}
