// The test of the range of details.
ghost use Rattle.std.specs.Prelude.{◌≡◌, ◌≤◌, length};
ghost use Rattle.details.specs.Details.{detail_numbers};
ghost use Rattle.details.specs.Refusals.{details_beyond};

use crate::records::DETAIL_STRIDE;
use net::{Size, any_outside};

// Whether one of the details of a whole net is above the limit of details in size. For the calls, which have refused
// details that are too short.
pub fn details_beyond(details: &[i32], size: Size) -> bool
    requires { detail_numbers size.w size.h ≤ length details.now }
    ensures { result ≡ details_beyond details.now size.w size.h }
{
    let n = DETAIL_STRIDE * (size.w * size.h);
    any_outside(&details[..n], 33554432)
}
