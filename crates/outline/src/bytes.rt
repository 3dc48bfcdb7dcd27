// The bytes of an outline: how many there are, and the tests of their count and of their values.
ghost use Rattle.std.specs.Prelude.{◌≡◌, ◌≤◌, length};
ghost use Rattle.net.specs.Refusals.{first_fault};
ghost use Rattle.net.specs.Results.{refused};
ghost use Rattle.outline.specs.Outline.{triangles};
ghost use Rattle.outline.specs.Refusals.{short_outline, any_above_one, bad_byte, outline_faults, outlined_faults};

use net::{Refusal, Size, short_net};

// How many triangles a net of this size has.
pub fn count_triangles(size: Size) -> usize
    ensures { result ≡ triangles size.w size.h }
{
    2 * ((size.w - 1) * (size.h - 1))
}

// Whether an outline has fewer bytes than the net has triangles.
fn short_outline(outline: &[u8], size: Size) -> bool
    ensures { result ≡ short_outline outline.now size.w size.h }
{
    outline.len() < count_triangles(size)
}

// Whether one of the bytes is above 1. No early return, so that many bytes are tested at a time.
fn any_above_one(bytes: &[u8]) -> bool
    ensures { result ≡ any_above_one bytes.now }
{
    let mut bad = false;
    for &b in bytes {
        bad |= 1 < b;
    }
    bad
}

// Whether one of the net's bytes is.
fn bad_byte(outline: &[u8], size: Size) -> bool
    requires { triangles size.w size.h ≤ length outline.now }
    ensures { result ≡ bad_byte outline.now size.w size.h }
{
    let n = count_triangles(size);
    any_above_one(&outline[..n])
}

// The first of 2 and 13 of an outline.
pub fn outline_refusal(outline: &[u8], size: Size) -> Result<(), Refusal>
    ensures { refused result ≡ first_fault (outline_faults outline.now size.w size.h) }
{
    if short_outline(outline, size) {
        return Err(Refusal::Short);
    }
    if bad_byte(outline, size) {
        return Err(Refusal::OutlineByte);
    }
    Ok(())
}

// The first of 2 and 13 of a net with its outline.
pub fn outlined_refusal(net: &[i32], size: Size, outline: &[u8]) -> Result<(), Refusal>
    ensures { refused result ≡ first_fault (outlined_faults net.now size.w size.h outline.now) }
{
    if short_net(net, size) {
        return Err(Refusal::Short);
    }
    outline_refusal(outline, size)
}
