// Places in 1,024ths of an edge: the chosen triangle, the shares of its corners, and their order.
ghost use Rattle.std.specs.Prelude.{◌≡◌, false, ◌-◌, ◌*◌, ◌≤◌};
ghost use Rattle.net.specs.Results.{refused};
ghost use Rattle.places.specs.Places.{cell, order_of};
ghost use Rattle.places.specs.Refusals.{no_place};
ghost use Rattle.places.specs.Located.{shares, Placed, InOrder, place_refusal};

use net::{Refusal, Size, short_net};

// A place's cell, the kind of its triangle, and the shares of corners 1, 2, 3.
#[derive(Clone, Copy)]
pub struct Located {
    pub i: usize,
    pub j: usize,
    pub down: bool,
    pub a: usize,
    pub b: usize,
    pub d: usize,
}

// Document 01's P, Q and T as places among the corners, whether Q is the next corner after P, and A, B and G.
#[derive(Clone, Copy)]
pub struct Ordered {
    pub p: usize,
    pub q: usize,
    pub t: usize,
    pub ahead: bool,
    pub a: usize,
    pub b: usize,
    pub g: usize,
}

// The cell of a place along a side of n vertices.
fn cell_of(n: usize, p: usize) -> usize
    requires { 2 ≤ n }
    ensures { result ≡ cell 1024 n p }
{
    if p / 1024 < n - 2 { p / 1024 } else { n - 2 }
}

// The triangle of a place and the shares of its corners. For `surface`, which has refused every other place.
pub fn locate(size: Size, p: usize, q: usize) -> Located
    requires { no_place 1024 size.w size.h p q ≡ false }
    ensures { Placed size.w size.h p q result.i result.j result.down result.a result.b result.d }
{
    let i = cell_of(size.w, p);
    let j = cell_of(size.h, q);
    let f = p - 1024 * i;
    let g = q - 1024 * j;
    if 1024 < f + g {
        Located {
            i,
            j,
            down: true,
            a: 1024 - g,
            b: 1024 - f,
            d: f + g - 1024,
        }
    } else {
        Located {
            i,
            j,
            down: false,
            a: 1024 - f - g,
            b: f,
            d: g,
        }
    }
}

// Whether place (p, q) is not in the grid.
fn no_place(size: Size, p: usize, q: usize) -> bool
    ensures { result ≡ no_place 1024 size.w size.h p q }
{
    if 1024 * (size.w - 1) < p {
        true
    } else {
        1024 * (size.h - 1) < q
    }
}

// The first fault, 1, 6 or 2.
pub fn place_refusal(net: &[i32], w: usize, h: usize, p: usize, q: usize) -> Result<(), Refusal>
    ensures { refused result ≡ place_refusal net.now w h p q }
{
    let size = Size::new(w, h)?;
    if no_place(size, p, q) {
        return Err(Refusal::Place);
    }
    if short_net(net, size) {
        return Err(Refusal::Short);
    }
    Ok(())
}

// Shares a ≥ b ≥ d of the corners p, q, t, with document 01's A, B and G. For `put_in_order`.
fn with_gaps(p: usize, q: usize, t: usize, ahead: bool, a: usize, b: usize, d: usize) -> Ordered
    requires { (a ≤ 1024) × (b ≤ a) × (d ≤ b) }
    ensures { (result.p ≡ p) × (result.q ≡ q) × (result.t ≡ t) × (result.ahead ≡ ahead) × (result.a ≡ a - b) × (result.b ≡ 2 * (b - d))
        × (result.g ≡ 3 * d) }
{
    Ordered {
        p,
        q,
        t,
        ahead,
        a: a - b,
        b: 2 * (b - d),
        g: 3 * d,
    }
}

// The shares of corners 1, 2, 3, put in order. For `surface`.
pub fn put_in_order(a: usize, b: usize, d: usize) -> Ordered
    requires { (a ≤ 1024) × (b ≤ 1024) × (d ≤ 1024) }
    ensures { InOrder (order_of (shares a b d)) (shares a b d) result.p result.q result.t result.ahead result.a result.b
        result.g }
{
    if b <= a {
        if d <= b {
            return with_gaps(0, 1, 2, true, a, b, d);
        }
        if d <= a {
            return with_gaps(0, 2, 1, false, a, d, b);
        }
        return with_gaps(2, 0, 1, true, d, a, b);
    }
    if d <= a {
        return with_gaps(1, 0, 2, false, b, a, d);
    }
    if d <= b {
        return with_gaps(1, 2, 0, true, b, d, a);
    }
    with_gaps(2, 1, 0, false, d, b, a)
}
