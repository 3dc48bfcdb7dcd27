// From a net file to the refined net that is listed. Everything is looked for that could be refused before the first
// number is stored.
ghost use Rattle.std.specs.Prelude.{◌≡◌, [], ◌∷◌, take};
ghost use Rattle.net.specs.Results.{refused};
ghost use Rattle.reader.specs.Answers.{read_answer};
ghost use Rattle.listing_input.specs.Printed.{step_refusal, RefineFileContract, Buffers};

use net::{Refusal, STRIDE, Size};
use reader::{check_file, read};
use refine::{refine, size_refusal};

// The listing program's buffers: at most so many bytes of its input are taken, and each of its two nets has room for so
// many numbers.
pub const INPUT_SIZE: usize = 65536;

pub const BUFFER_SIZE: usize = 16384;

// 4 or 5 of one refinement into `room` numbers. One step needs no scratch.
fn step_refusal(size: Size, room: usize) -> Result<(), Refusal>
    ensures { refused result ≡ step_refusal size.w size.h room }
{
    size_refusal(size.w, size.h, 1)?;
    if room < STRIDE * ((2 * size.w - 1) * (2 * size.h - 1)) {
        return Err(Refusal::Room);
    }
    Ok(())
}

// The same, of a file of a net of width w and height h. For `refine_file`, which has checked the file.
fn refine_checked(
    file: &[u8],
    w: usize,
    h: usize,
    net: &mut [i32],
    refined: &mut [i32],
) -> Result<(usize, usize), Refusal>
    requires { read_answer file.now net.old ≡ (0, w ∷ h ∷ []) }
    ensures { RefineFileContract file.now net.old refined.old result
        net.new refined.new }
{
    step_refusal(Size { w, h }, refined.len())?;
    let mut scratch = [0i32; 1];
    let _ = read(file, net);
    let _ = refine(net, w, h, 1, refined, &mut scratch);
    Ok((2 * w - 1, 2 * h - 1))
}

// The file's numbers over the front of `net`, the net that one refinement makes of them over the front of `refined`,
// and its width and height; or the first fault of reading and then of refining, which changes neither. No
// preconditions.
fn refine_file(file: &[u8], net: &mut [i32], refined: &mut [i32]) -> Result<(usize, usize), Refusal>
    ensures { RefineFileContract file.now net.old refined.old result
        net.new refined.new }
{
    let (w, h) = check_file(file, false, net.len())?;
    refine_checked(file, w, h, net, refined)
}

// The same of the first `count` bytes of the program's input, in the program's buffers. For the listing program, whose
// buffers are held to document 01's sizes by the precondition.
pub fn refine_input(
    input: &[u8],
    count: usize,
    net: &mut [i32],
    refined: &mut [i32],
) -> Result<(usize, usize), Refusal>
    requires { Buffers input.now count net.old refined.old }
    ensures { RefineFileContract (take count input.now) net.old refined.old result
        net.new refined.new }
{
    refine_file(&input[..count], net, refined)
}
