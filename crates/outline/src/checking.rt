// The call that checks an outline by width and height alone.
ghost use Rattle.std.specs.Prelude.{◌≡◌, length};
ghost use Rattle.exact.specs.Filling.{UnchangedFrom};
ghost use Rattle.net.specs.Refusals.{first_fault};
ghost use Rattle.net.specs.Results.{refused, call_outcome};
ghost use Rattle.outline.specs.Refusals.{check_faults, free_search};
ghost use Rattle.outline.specs.Answers.{check_answer};

use crate::bytes::{count_triangles, outline_refusal};
use crate::search::is_connected;
use net::{Refusal, Size};

// The first of 1, 2, 13 and 5; `room` is the length of the search.
fn refusal_before(outline: &[u8], w: usize, h: usize, room: usize) -> Result<(), Refusal>
    ensures { refused result ≡ first_fault (check_faults outline.now w h room) }
{
    let size = Size::new(w, h)?;
    outline_refusal(outline, size)?;
    if room < count_triangles(size) {
        return Err(Refusal::Room);
    }
    Ok(())
}

// Whether an outline can be taken for a net of width w and height h, or the first of 1, 2, 13, 5, 14. Where no fault
// before 14 is there, the first numbers of `search`, one a triangle, are free afterwards.
pub fn check_outline(outline: &[u8], w: usize, h: usize, search: &mut [u32]) -> Result<(), Refusal>
    ensures result_value { call_outcome result ≡ check_answer outline.now w h (length search.old) }
    ensures unchanged_from { UnchangedFrom (free_search (check_faults outline.now w h (length search.old)) w h)
        search.old search.new }
{
    refusal_before(outline, w, h, search.len())?;
    if is_connected(outline, Size { w, h }, search) {
        Ok(())
    } else {
        Err(Refusal::NotConnected)
    }
}
