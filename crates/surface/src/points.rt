// Surface points, and the viewer's points.
ghost use Rattle.std.specs.Prelude.{◌≡◌, false, ◌*◌, ◌≤◌, ◌<◌, nat_abs};
ghost use Rattle.exact.specs.Rounding.{rounded};
ghost use Rattle.surface.specs.Evaluation.{corner_values, evaluated, Evaluable};
ghost use Rattle.surface.specs.Answers.{point_outcome, view_outcome, point_answer, point_answer_with, view_answer, view_answer_with, millimetres, InMillimetres};

use crate::answers::{Point, ViewPoint};
use de_casteljau::{Corner, last_average};
use exact::round_even;
use net::{Refusal, Size};
use places::{locate, place_refusal, put_in_order};
use triangles::{load_corner, triangle_beyond};

// One coordinate of a corner's control points ck, cn and cm.
fn corner_in(c: [[i32; 3]; 3], x: usize) -> Corner
    requires { x < 3 }
    ensures { result ≡ corner_values c x }
{
    let k = c[0][x] as i64;
    let n = c[1][x] as i64;
    let m = c[2][x] as i64;
    Corner { k, n, m }
}

// The quotient of the last average and 36·1024², rounded once. The bound keeps it an i32.
fn round_point(last: i64) -> i32
    requires { nat_abs last ≤ 37748736 * 16777216 }
    ensures { result ≡ rounded last 37748736 }
{
    round_even(last, 18874368, 16777216) as i32
}

// The point in one coordinate, of the control triangles of P, Q and T, each in the order ck, cn, cm.
fn coordinate_at(ahead: bool, a: usize, b: usize, g: usize, c: [[[i32; 3]; 3]; 3], x: usize) -> i32
    requires { Evaluable a b g c × (x < 3) }
    ensures { result ≡ evaluated ahead a b g c x }
{
    let p = corner_in(c[0], x);
    let q = corner_in(c[1], x);
    let t = corner_in(c[2], x);
    let last = last_average(ahead, a, b, g, p, q, t);
    round_point(last)
}

// The point in each coordinate. In a loop: the steps are called at one place, and the compiler writes them out there.
fn evaluate(ahead: bool, a: usize, b: usize, g: usize, c: [[[i32; 3]; 3]; 3]) -> Point
    requires { Evaluable a b g c }
    ensures x_value { result.x ≡ evaluated ahead a b g c 0 }
    ensures y_value { result.y ≡ evaluated ahead a b g c 1 }
    ensures z_value { result.z ≡ evaluated ahead a b g c 2 }
{
    let mut point = [0i32; 3];
    for (i, value) in point.iter_mut().enumerate() {
        *value = coordinate_at(ahead, a, b, g, c, i);
    }
    let x = point[0];
    let y = point[1];
    let z = point[2];
    Point { x, y, z }
}

// The same as `surface_point`, for the crates above: `short` is whether an output that they were lent for the point is
// too short, which is 5.
pub fn surface_point_with(
    net: &[i32],
    w: usize,
    h: usize,
    p: usize,
    q: usize,
    short: bool,
) -> Result<Point, Refusal>
    ensures { point_outcome result ≡ point_answer_with net.now w h p q short }
{
    place_refusal(net, w, h, p, q)?;
    if short {
        return Err(Refusal::Room);
    }
    let at = locate(Size { w, h }, p, q);
    let i = at.i;
    let j = at.j;
    let down = at.down;
    if triangle_beyond(net, w, i, j, down) {
        return Err(Refusal::Range);
    }
    let o = put_in_order(at.a, at.b, at.d);
    let p = load_corner(net, w, i, j, down, o.p);
    let q = load_corner(net, w, i, j, down, o.q);
    let t = load_corner(net, w, i, j, down, o.t);
    Ok(evaluate(o.ahead, o.a, o.b, o.g, [p, q, t]))
}

// The surface point at place (p, q), counted in 1,024ths of an edge.
// Mirror images: `MirroredPoints` in `crates/mirror/specs/Promises.antt`.
pub fn surface_point(net: &[i32], w: usize, h: usize, p: usize, q: usize) -> Result<Point, Refusal>
    ensures { point_outcome result ≡ point_answer net.now w h p q }
{
    surface_point_with(net, w, h, p, q, false)
}

// A whole number of net units in millimetres: converted, then divided by 1,024.
fn millimetres_of(z: i32) -> f64
    ensures { result ≡ millimetres z }
{
    z as f64 / 1024.0
}

// A surface point for the viewer.
impl From<Point> for ViewPoint {
    ghost from_gives = { InMillimetres };

    fn from(point: Point) -> ViewPoint {
        ViewPoint {
            x: millimetres_of(point.x),
            y: millimetres_of(point.y),
            z: millimetres_of(point.z),
        }
    }
}

// The same as `view_point`, for the crates above, with `short` as in `surface_point_with`.
pub fn view_point_with(
    net: &[i32],
    w: usize,
    h: usize,
    p: usize,
    q: usize,
    short: bool,
) -> Result<ViewPoint, Refusal>
    ensures { view_outcome result ≡ view_answer_with net.now w h p q short }
{
    Ok(surface_point_with(net, w, h, p, q, short)?.into())
}

// The surface point in millimetres, for the viewer.
// Mirror images: `MirroredPoints` in `crates/mirror/specs/Promises.antt`.
pub fn view_point(net: &[i32], w: usize, h: usize, p: usize, q: usize) -> Result<ViewPoint, Refusal>
    ensures { view_outcome result ≡ view_answer net.now w h p q }
{
    view_point_with(net, w, h, p, q, false)
}
