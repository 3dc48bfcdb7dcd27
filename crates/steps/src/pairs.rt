// Two neighbouring vertices of a row of the refined grid. Rows with an even number have kept vertices and those on
// edges along e1, odd rows those on edges along e3 and e2: no vertex asks for its kind, and each kind's rule is called
// at one place. The loop in `steps.rt` establishes the preconditions.
ghost use Rattle.std.specs.Prelude.{◌≡◌, ◌+◌, ◌*◌, ◌<◌, ◌/◌, length};
ghost use Rattle.std.proofs.lemmas.List.Edits.{sets};
ghost use Rattle.steps.specs.RefinedNet.{refined_fields};
ghost use Rattle.steps.specs.Steps.{pair_run, PairReady};

use crate::vertices::store_triangle;
use net::{STRIDE, load};
use rule::{edge_triangle, kept_triangle};

// Of row 2n, stored from a place on.
fn even_pair(net: &[i32], w: usize, h: usize, m: usize, n: usize, at: usize, out: &mut [i32])
    requires { PairReady net.now w h m n at (length out.old) }
    ensures { out.new
        ≡ sets out.old at (pair_run (refined_fields net.now w) w (2 * n) m) }
{
    let a = load(net, w, m, n);
    store_triangle(kept_triangle(a), at, out);
    if m + 1 < w {
        let b = load(net, w, m + 1, n);
        store_triangle(edge_triangle::<1>(a, b), at + STRIDE, out);
    }
}

// Of row 2n + 1. Edges along e3 and e2 go between rows n and n + 1.
fn odd_pair(net: &[i32], w: usize, h: usize, m: usize, n: usize, at: usize, out: &mut [i32])
    requires { PairReady net.now w h m n at (length out.old) × (n + 1 < h) }
    ensures { out.new
        ≡ sets out.old at (pair_run (refined_fields net.now w) w (2 * n + 1) m) }
{
    let a = load(net, w, m, n);
    let c = load(net, w, m, n + 1);
    store_triangle(edge_triangle::<3>(c, a), at, out);
    if m + 1 < w {
        let b = load(net, w, m + 1, n);
        store_triangle(edge_triangle::<2>(b, c), at + STRIDE, out);
    }
}

// Of row j.
pub fn store_pair(net: &[i32], w: usize, h: usize, j: usize, m: usize, at: usize, out: &mut [i32])
    requires { PairReady net.now w h m (j / 2) at (length out.old) × (j + 1 < 2 * h) }
    ensures { out.new
        ≡ sets out.old at (pair_run (refined_fields net.now w) w j m) }
{
    let n = j / 2;
    if 2 * n < j {
        odd_pair(net, w, h, m, n, at, out);
    } else {
        even_pair(net, w, h, m, n, at, out);
    }
}
