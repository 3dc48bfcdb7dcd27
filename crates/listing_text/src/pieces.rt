// The listing of a net in pieces of one line each, and as many of them as a lent output is sure to hold.
ghost use Rattle.std.specs.Prelude.{◌≡◌, ◌+◌, ◌*◌, ◌≤◌, length};
ghost use Rattle.exact.specs.Filling.{over};
ghost use Rattle.net.specs.Refusals.{AcceptedNet};
ghost use Rattle.decimal.specs.Storing.{Stored};
ghost use Rattle.listing_text.specs.Listing.{piece_text, longest_line};
ghost use Rattle.listing_text.specs.Collected.{PiecesContract};

use crate::lines::{store_head_line, store_point_line};
use surface::surface_point;

// A line is sure to fit where so many bytes are left (`longest_line`).
const LONGEST_LINE: usize = 46;

// Pieces one after the other: how many bytes they have, and which piece comes next.
#[derive(Clone, Copy)]
pub struct Collected {
    pub count: usize,
    pub next: usize,
}

// Piece n of the listing over the front of `out`, and how long it is. For `add_piece`, which lends room for a line and
// an accepted net, no vertex of which is refused its point.
fn list_piece(net: &[i32], w: usize, h: usize, n: usize, out: &mut [u8]) -> usize
    requires { AcceptedNet net.now w h × (n ≤ w * h) × (longest_line ≤ length out.old) }
    ensures out_after { out.new ≡ over (piece_text net.now w h n) out.old }
    ensures value { result ≡ length (piece_text net.now w h n) }
    ensures upper_bound { result ≤ longest_line }
{
    if n == 0 {
        return store_head_line(w, h, out);
    }
    let i = (n - 1) % w;
    let j = (n - 1) / w;
    match surface_point(net, w, h, 1024 * i, 1024 * j) {
        Ok(point) => store_point_line(i, j, point.x, point.y, point.z, out),
        Err(_) => 0,
    }
}

// Piece n of the listing in `out` from `at` on, and the place after it. For `list_pieces`, which leaves room for it.
fn add_piece(net: &[i32], w: usize, h: usize, n: usize, at: usize, out: &mut [u8]) -> usize
    requires { AcceptedNet net.now w h × (n ≤ w * h) × (at + longest_line ≤ length out.old) }
    ensures stored { Stored out.old at (piece_text net.now w h n) out.new result }
    ensures upper_bound { result ≤ at + longest_line }
{
    at + list_piece(net, w, h, n, &mut out[at..])
}

// The pieces from n on over the front of `out`, one after the other, to the last or until the next might not fit. For
// the listing program, which lends an accepted net and room for a line, so that at least one piece fits.
pub fn list_pieces(net: &[i32], w: usize, h: usize, n: usize, out: &mut [u8]) -> Collected
    requires { AcceptedNet net.now w h × (n ≤ w * h) × (longest_line ≤ length out.old) }
    ensures { PiecesContract net.now w h n out.old result out.new }
{
    let pieces = 1 + w * h;
    let last = out.len() - LONGEST_LINE;
    let mut at = 0;
    for next in n..pieces {
        if last < at {
            return Collected { count: at, next };
        }
        at = add_piece(net, w, h, next, at, out);
    }
    Collected {
        count: at,
        next: pieces,
    }
}
