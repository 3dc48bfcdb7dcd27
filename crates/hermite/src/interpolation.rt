// The call: nothing is written before it is known that nothing is refused.
ghost use Rattle.std.specs.Prelude.{◌≡◌};
ghost use Rattle.net.specs.Results.{refused};
ghost use Rattle.hermite.specs.Refusals.{given_refusal};
ghost use Rattle.hermite.specs.Answers.{GivenContract};

use crate::nets::{hermite_beyond, store_hermite};
use crate::records::GIVEN_STRIDE;
use net::{Refusal, STRIDE, Size};

// The first fault, 1, 2, 5 or 16.
fn given_refusal(given: &[i32], w: usize, h: usize, room: usize) -> Result<(), Refusal>
    ensures { refused result ≡ given_refusal given.now w h room }
{
    Size::new(w, h)?;
    if given.len() < GIVEN_STRIDE * (w * h) {
        return Err(Refusal::Short);
    }
    if room < STRIDE * (w * h) {
        return Err(Refusal::Room);
    }
    if hermite_beyond(given, w, h) {
        return Err(Refusal::ControlRange);
    }
    Ok(())
}

// The net with c1 = p + t1, c2 = p + t2, c3 = p - t1 - t2 of each vertex over the front of `out`, or the first of 1, 2,
// 5, 16. `given` has p, t1 and t2 of each vertex, any i32. What the net then has of them is in `specs/Promises.antt`.
pub fn from_points(given: &[i32], w: usize, h: usize, out: &mut [i32]) -> Result<(), Refusal>
    ensures { GivenContract given.now w h out.old result out.new }
{
    given_refusal(given, w, h, out.len())?;
    store_hermite(given, w, h, out);
    Ok(())
}
