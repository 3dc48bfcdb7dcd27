// Sides after k steps, and the longest row.
ghost use Rattle.std.specs.Prelude.{◌≡◌, false, ◌≤◌};
ghost use Rattle.net.specs.Refusals.{bad_size};
ghost use Rattle.subdivision.specs.Refinement.{side_after};
ghost use Rattle.steps.specs.Steps.{Depth};

use net::STRIDE;

// The numbers of the longest row of a net, for a row by itself.
pub const ROW_SIZE: usize = 1025 * STRIDE;

// k steps from a net of width w and height h that 1 and 4 do not refuse.
#[derive(Clone, Copy)]
pub struct Steps {
    pub w: usize,
    pub h: usize,
    pub k: usize,
    ghost sized: { bad_size w h ≡ false },
    ghost depth: { Depth w h k },
}

// A side of n vertices after k steps. For the steps and for `refine`, which have refused every other side
// and k.
pub fn side_after(n: usize, k: usize) -> usize
    requires { (1 ≤ n) × (n ≤ 1025) × (k ≤ 6) }
    ensures { result ≡ side_after k n }
{
    let mut side = n;
    for _ in 0..k {
        side = 2 * side - 1;
    }
    side
}
