// The lines, each from the front of a lent output. `list_refusal` and `list_piece` establish the preconditions of the
// inner functions.
ghost use Rattle.std.specs.Prelude.{◌≡◌, ◌≤◌, length};
ghost use Rattle.exact.specs.Filling.{over};
ghost use Rattle.decimal.specs.Storing.{Stored};
ghost use Rattle.listing_text.specs.Listing.{head_line, point_line, refusal_line, longest_line};

use decimal::{store_count, store_number};

// A text as it is.
fn store_text(text: &[u8], out: &mut [u8]) -> usize
    requires { length text.now ≤ length out.old }
    ensures { Stored out.old 0 text.now out.new result }
{
    out[..text.len()].copy_from_slice(text);
    text.len()
}

// The first line of a net.
pub fn store_head_line(w: usize, h: usize, out: &mut [u8]) -> usize
    requires { length (head_line w h) ≤ length out.old }
    ensures { Stored out.old 0 (head_line w h) out.new result }
{
    let a = store_text(b"net ", out);
    let b = store_count(w, b' ', a, out);
    store_count(h, b'\n', b, out)
}

// The line of a vertex.
pub fn store_point_line(i: usize, j: usize, x: i32, y: i32, z: i32, out: &mut [u8]) -> usize
    requires { length (point_line i j x y z) ≤ length out.old }
    ensures { Stored out.old 0 (point_line i j x y z) out.new result }
{
    let a = store_count(i, b' ', 0, out);
    let b = store_count(j, b' ', a, out);
    let c = store_number(x, b' ', b, out);
    let d = store_number(y, b' ', c, out);
    store_number(z, b'\n', d, out)
}

// The line of a refusal over the front of `out`, and how long it is. For the listing program, which lends room for a
// line.
pub fn list_refusal(n: u32, out: &mut [u8]) -> usize
    requires { longest_line ≤ length out.old }
    ensures out_after { out.new ≡ over (refusal_line n) out.old }
    ensures value { result ≡ length (refusal_line n) }
    ensures upper_bound { result ≤ longest_line }
{
    let a = store_text(b"refused ", out);
    store_count(n as usize, b'\n', a, out)
}
