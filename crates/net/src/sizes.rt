// The sizes that a net may have, and the numbers that it then needs.
ghost use Rattle.std.specs.Prelude.{◌≡◌, false, [], ◌∷◌, IfOk};
ghost use Rattle.net.specs.Refusals.{first_fault, bad_side, bad_size, short_net, too_short_for};
ghost use Rattle.net.specs.Results.{refused};

use crate::records::STRIDE;
use crate::refusals::Refusal;

// The vertices along the two sides of a net of an accepted size.
#[derive(Clone, Copy)]
pub struct Size {
    pub w: usize,
    pub h: usize,
    ghost accepted: { bad_size w h ≡ false },
}

// Whether the count of vertices of one side is outside 2 to 1,025.
pub fn bad_side(n: usize) -> bool
    ensures { result ≡ bad_side n }
{
    if n < 2 { true } else { 1025 < n }
}

// Whether one of the two sides is.
pub fn bad_size(w: usize, h: usize) -> bool
    ensures { result ≡ bad_size w h }
{
    if bad_side(w) { true } else { bad_side(h) }
}

impl Size {
    // The size of a width and a height, or 1.
    pub fn new(w: usize, h: usize) -> Result<Size, Refusal>
        ensures number { refused result ≡ first_fault ((bad_size w h, 1) ∷ []) }
        ensures sides { IfOk result (λ s. (s.w ≡ w) × (s.h ≡ h)) }
    {
        if bad_size(w, h) {
            return Err(Refusal::Size);
        }
        Ok(Size { w, h })
    }
}

// Whether a net is shorter than its vertices need.
pub fn short_net(net: &[i32], size: Size) -> bool
    ensures { result ≡ short_net net.now size.w size.h }
{
    net.len() < STRIDE * (size.w * size.h)
}

// Whether a net of this size does not fit `room` numbers; a bad size is refused before that counts.
pub fn too_short_for(w: usize, h: usize, room: usize) -> bool
    ensures { result ≡ too_short_for w h room }
{
    if bad_size(w, h) {
        return false;
    }
    room < STRIDE * (w * h)
}
