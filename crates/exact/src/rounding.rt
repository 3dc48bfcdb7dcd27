// Rounding of a quotient of signed numbers. The kernel divides signed numbers nowhere else.
ghost use Rattle.std.specs.Prelude.{◌≡◌, ◌*◌, ◌<◌, ◌≤◌, ◌^◌, pos, nat_abs, ◌+ℤ◌, ◌-ℤ◌};
ghost use Rattle.exact.specs.Rounding.{rounded};

// n / d to the nearest whole number, halves away from zero (request d): a half more in size, and then the language's
// division, which goes towards zero. The bounds keep the numerator within an i64; a weighted sum meets the one on n.
pub fn round_quotient(n: i64, d: u64) -> i64
    requires { (0 < d) × (d ≤ 2 ^ 61) × (nat_abs n ≤ 2 ^ 61) }
    ensures { result ≡ rounded n d }
{
    let wide = d as i64;
    if n < 0 {
        (2 * n - wide) / (2 * wide)
    } else {
        (2 * n + wide) / (2 * wide)
    }
}

// A number of at most `by` in size, raised by that: not negative.
fn raised(n: i64, by: u64) -> u64
    requires { (by ≤ 2 ^ 61) × (nat_abs n ≤ by) }
    ensures { pos result ≡ n +ℤ pos by }
{
    (n + by as i64) as u64
}

// And taken down again.
fn lowered(n: u64, by: u64) -> i64
    requires { (n ≤ 2 ^ 62) × (by ≤ 2 ^ 61) }
    ensures { result ≡ pos n -ℤ pos by }
{
    n as i64 - by as i64
}

// The same as `round_quotient`, of an even divisor 2 * half and a quotient of at most `most` in size. The numerator is
// raised by `most` divisors, so one unsigned quotient will do. Below zero a half goes down: one less is added there.
pub fn round_even(n: i64, half: u64, most: u64) -> i64
    requires { (0 < half) × (0 < most) × (2 * half * most ≤ 2 ^ 61) × (nat_abs n ≤ 2 * half * most) }
    ensures { result ≡ rounded n (2 * half) }
{
    let raise = 2 * half * most;
    let above = raised(n, raise);
    let below = (above < raise) as u64;
    lowered((above + half - below) / (2 * half), most)
}

// The same with a quotient of 32 bits: where half and most are literals the compiler forms several of them at once.
pub fn round_even_narrow(n: i64, half: u32, most: u32) -> i32
    requires { (0 < half) × (0 < most) × (2 * half * most ≤ 2 ^ 30) × (nat_abs n ≤ 2 * half * most) }
    ensures { result ≡ rounded n (2 * half) }
{
    let raise = 2 * half * most;
    let above = raised(n, raise as u64) as u32;
    let below = (above < raise) as u32;
    let quotient = (above + half - below) / (2 * half);
    lowered(quotient as u64, most as u64) as i32
}
