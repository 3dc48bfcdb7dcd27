// Cleaning: nothing is written before it is known that nothing is refused.
ghost use Rattle.std.specs.Prelude.{◌≡◌, map, ◌≤◌};
ghost use Rattle.net.specs.Results.{refused, call_outcome};
ghost use Rattle.details.specs.Refusals.{detail_limit, too_great, clean_refusal};
ghost use Rattle.details.specs.Cleaning.{cleaned, clean_answer, clean_output};

use crate::ranges::details_beyond;
use crate::records::DETAIL_STRIDE;
use crate::sizes::{even_size, short_details};
use net::{Refusal, Size};

// Whether a threshold is above the range of details.
pub fn too_great(t: u32) -> bool
    ensures { result ≡ too_great t }
{
    33554432 < t
}

// A detail, or 0 where its size is below t. Both limits are compared with: the least i32 has no size that fits.
fn cleaned_number(z: i32, t: u32) -> i32
    requires { t ≤ detail_limit }
    ensures { result ≡ cleaned t z }
{
    let limit = t as i32;
    if z <= -limit {
        z
    } else {
        if limit <= z { z } else { 0 }
    }
}

// All of the details, cleaned.
fn clean_all(details: &mut [i32], t: u32)
    requires { t ≤ detail_limit }
    ensures { details.new ≡ map (cleaned t) details.old }
{
    for z in details {
        *z = cleaned_number(*z, t);
    }
}

// The first fault, 1, 10, 12, 2 or 3.
fn clean_refusal(details: &[i32], w: usize, h: usize, t: u32) -> Result<(), Refusal>
    ensures { refused result ≡ clean_refusal details.now w h t }
{
    let size = Size::new(w, h)?;
    if even_size(w, h) {
        return Err(Refusal::Even);
    }
    if too_great(t) {
        return Err(Refusal::Threshold);
    }
    if short_details(details, size) {
        return Err(Refusal::Short);
    }
    if details_beyond(details, size) {
        return Err(Refusal::Range);
    }
    Ok(())
}

// Each detail of size below t becomes 0, in place; or the first of 1, 10, 12, 2, 3.
// Mirror images: `MirroredCleaning` in `crates/mirror/specs/Promises.antt`.
pub fn clean(details: &mut [i32], w: usize, h: usize, t: u32) -> Result<(), Refusal>
    ensures result_value { call_outcome result ≡ clean_answer details.old w h t }
    ensures details_after { details.new ≡ clean_output details.old w h t }
{
    clean_refusal(details, w, h, t)?;
    let n = DETAIL_STRIDE * (w * h);
    clean_all(&mut details[..n], t);
    Ok(())
}
