// A list of numbers laid over the front of a lent slice.
ghost use Rattle.std.specs.Prelude.{◌≡◌, ◌≤◌, length};
ghost use Rattle.exact.specs.Filling.{over};

// The numbers, laid over the front of `out`; nothing after them changes. In a loop: the library's copy is a call of
// memcpy, which the static library has not.
pub fn copy_over(numbers: &[i32], out: &mut [i32])
    requires { length numbers.now ≤ length out.old }
    ensures { out.new ≡ over numbers.now out.old }
{
    for (i, &z) in numbers.iter().enumerate() {
        out[i] = z;
    }
}
