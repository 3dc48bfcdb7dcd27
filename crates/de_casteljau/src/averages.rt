// The four averages of source document 000, formula 2.15, in its order, with τ = (A, B, G) / 1024.
ghost use Rattle.std.specs.Prelude.{◌≡◌, [], ◌∷◌, ◌+◌, ◌^◌};
ghost use Rattle.exact.specs.WeightedSum.{Within};
ghost use Rattle.de_casteljau.specs.Ordinates.{values_of, six, ordinates};
ghost use Rattle.de_casteljau.specs.Averages.{average, first_average, second_average, third_average, last_average};

use crate::points::{Corner, Ordinates, ordinates_of};

// Source 000's intermediate ordinates b^r(λ1, λ2, λ3). The indices add up to 2 - r.
#[derive(Clone, Copy)]
pub struct Averages {
    // b^1(1, 0, 0)
    pub b100: i64,
    // b^1(0, 1, 0)
    pub b010: i64,
    // b^1(0, 0, 1)
    pub b001: i64,
    // b^2(0, 0, 0)
    pub b000: i64,
}

// Formula 2.15, times 1,024: A times the first of three numbers, B times the second and G times the third.
fn weigh(a: usize, b: usize, g: usize, x: i64, y: i64, z: i64) -> i64
    requires { (a + b + g ≡ 1024) × Within (2 ^ 48) (x ∷ y ∷ z ∷ []) }
    ensures { result ≡ average a b g x y z }
{
    a as i64 * x + b as i64 * y + g as i64 * z
}

// The steps r = 1 and r = 2, for `last_average`: three averages of the six points, and one of these.
pub fn averages_of(a: usize, b: usize, g: usize, o: Ordinates) -> Averages
    requires { (a + b + g ≡ 1024) × Within (2 ^ 38) (six o) }
    ensures b100_value { result.b100 ≡ first_average a b g o }
    ensures b010_value { result.b010 ≡ second_average a b g o }
    ensures b001_value { result.b001 ≡ third_average a b g o }
    ensures b000_value { result.b000 ≡ last_average a b g o }
{
    let b100 = weigh(a, b, g, o.b200, o.b110, o.b101);
    let b010 = weigh(a, b, g, o.b110, o.b020, o.b011);
    let b001 = weigh(a, b, g, o.b101, o.b011, o.b002);
    let b000 = weigh(a, b, g, b100, b010, b001);
    Averages {
        b100,
        b010,
        b001,
        b000,
    }
}

// From the nine values to the last average. For `surface`, whose values are far below the bound.
pub fn last_average(
    ahead: bool,
    a: usize,
    b: usize,
    g: usize,
    p: Corner,
    q: Corner,
    t: Corner,
) -> i64
    requires g_value { a + b + g ≡ 1024 }
    requires within { Within (2 ^ 32) (values_of p) × Within (2 ^ 32) (values_of q) × Within (2 ^ 32) (values_of t) }
    ensures { result ≡ last_average a b g (ordinates ahead p q t) }
{
    let o = ordinates_of(ahead, p, q, t);
    let steps = averages_of(a, b, g, o);
    steps.b000
}
