// The sizes that a net may be split at, and the details that it then has.
ghost use Rattle.std.specs.Prelude.{◌≡◌};
ghost use Rattle.details.specs.Refusals.{even_side, even_size, short_details};

use crate::records::DETAIL_STRIDE;
use net::Size;

// Whether a side has an even count of vertices.
fn even_side(n: usize) -> bool
    ensures { result ≡ even_side n }
{
    n % 2 == 0
}

// Whether one of the two sides has.
pub fn even_size(w: usize, h: usize) -> bool
    ensures { result ≡ even_size w h }
{
    if even_side(w) { true } else { even_side(h) }
}

// Whether details are shorter than those of a size.
pub fn short_details(details: &[i32], size: Size) -> bool
    ensures { result ≡ short_details details.now size.w size.h }
{
    details.len() < DETAIL_STRIDE * (size.w * size.h)
}
