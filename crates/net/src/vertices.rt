// The nine numbers of a vertex, handed back as that part of the lent net, and the refusals of that.
ghost use Rattle.std.specs.Prelude.{◌≡◌};
ghost use Rattle.net.specs.Refusals.{no_vertex, vertex_refusal, vertex_part};
ghost use Rattle.net.specs.Results.{refused};

use crate::records::STRIDE;
use crate::refusals::Refusal;
use crate::sizes::{Size, short_net};

// Whether vertex (i, j) is not in the grid.
fn no_vertex(w: usize, h: usize, i: usize, j: usize) -> bool
    ensures { result ≡ no_vertex w h i j }
{
    if w <= i { true } else { h <= j }
}

// The first fault, 1, 6 or 2. No number's range is tested.
pub fn vertex_refusal(net: &[i32], w: usize, h: usize, i: usize, j: usize) -> Result<(), Refusal>
    ensures { refused result ≡ vertex_refusal net.now w h i j }
{
    let size = Size::new(w, h)?;
    if no_vertex(w, h, i, j) {
        return Err(Refusal::Place);
    }
    if short_net(net, size) {
        return Err(Refusal::Short);
    }
    Ok(())
}

// The nine numbers of vertex (i, j); an empty part where `vertex_refusal` refuses, as document 01 has it.
pub fn vertex(net: &[i32], w: usize, h: usize, i: usize, j: usize) -> &[i32]
    ensures { result.now ≡ vertex_part net.now w h i j }
{
    match vertex_refusal(net, w, h, i, j) {
        Ok(()) => {
            let at = STRIDE * (j * w + i);
            &net[at..at + STRIDE]
        }
        Err(_) => &net[0..0],
    }
}
