// Numbers as text, stored from a place on. Each function answers the place after what it stored. Callers establish the
// precondition, room for the text: the functions below, and the lines of the listing.
ghost use Rattle.std.specs.Prelude.{◌≡◌, [], ◌∷◌, ◌++◌, ◌+◌, ◌≤◌, ◌<◌, length};
ghost use Rattle.decimal.specs.Decimal.{digit, decimal, signed_decimal};
ghost use Rattle.decimal.specs.Storing.{Stored};

// The byte of a digit.
fn digit_byte(d: usize) -> u8
    requires { d < 10 }
    ensures { result ≡ digit d }
{
    48 + d as u8
}

// One byte.
fn store_byte(b: u8, at: usize, out: &mut [u8]) -> usize
    requires { at + 1 ≤ length out.old }
    ensures { Stored out.old at (b ∷ []) out.new result }
{
    out[at] = b;
    at + 1
}

// The digits of n: those of n / 10 first.
fn store_decimal(n: usize, at: usize, out: &mut [u8]) -> usize
    requires { at + length (decimal n) ≤ length out.old }
    ensures { Stored out.old at (decimal n) out.new result }
{
    if n < 10 {
        store_byte(digit_byte(n), at, out)
    } else {
        let after = store_decimal(n / 10, at, out);
        store_byte(digit_byte(n % 10), after, out)
    }
}

// A number with its sign. The least i32 has no opposite among the i32, so its size is taken as a u32.
fn store_signed(z: i32, at: usize, out: &mut [u8]) -> usize
    requires { at + length (signed_decimal z) ≤ length out.old }
    ensures { Stored out.old at (signed_decimal z) out.new result }
{
    let n = z.unsigned_abs() as usize;
    if z < 0 {
        let after = store_byte(b'-', at, out);
        store_decimal(n, after, out)
    } else {
        store_decimal(n, at, out)
    }
}

// A count, and the byte that ends it.
pub fn store_count(n: usize, end: u8, at: usize, out: &mut [u8]) -> usize
    requires { at + length (decimal n ++ (end ∷ [])) ≤ length out.old }
    ensures { Stored out.old at (decimal n ++ (end ∷ [])) out.new result }
{
    let after = store_decimal(n, at, out);
    store_byte(end, after, out)
}

// A number, and the byte that ends it.
pub fn store_number(z: i32, end: u8, at: usize, out: &mut [u8]) -> usize
    requires { at + length (signed_decimal z ++ (end ∷ [])) ≤ length out.old }
    ensures { Stored out.old at (signed_decimal z ++ (end ∷ [])) out.new result }
{
    let after = store_signed(z, at, out);
    store_byte(end, after, out)
}
