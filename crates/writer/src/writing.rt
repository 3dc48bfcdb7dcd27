// The writer: nothing is stored before it is known that nothing is refused. Callers in this file establish the
// preconditions of the inner functions.
ghost use Rattle.std.specs.Prelude.{◌≡◌, false, ◌||◌, ◌+◌, ◌*◌, ◌≤◌, ◌<◌, length};
ghost use Rattle.std.proofs.lemmas.List.Edits.{sets};
ghost use Rattle.exact.specs.Filling.{over, runs};
ghost use Rattle.net.specs.Net.{numbers, point_stride};
ghost use Rattle.net.specs.Refusals.{any_beyond};
ghost use Rattle.words.specs.NetFile.{head_size, point_size, point_place, point_bytes, net_file, file_size};
ghost use Rattle.net.specs.Results.{refused};
ghost use Rattle.writer.specs.Refusals.{no_room, write_refusal};
ghost use Rattle.writer.specs.Answers.{write_outcome, write_answer_with, write_output_with, write_answer, write_output};

use net::{POINT_STRIDE, Refusal, STRIDE, Size, net_beyond, short_net};
use words::{HEAD_SIZE, Kind, POINT_SIZE, store_number, store_word};

// So many bytes the file of a net has.
fn file_size(size: Size) -> usize
    ensures { result ≡ file_size size.w size.h }
{
    HEAD_SIZE + POINT_SIZE * (3 * (size.w * size.h)) + 4
}

// The first fault, 1, 2, 5 or 3.
fn write_refusal(net: &[i32], w: usize, h: usize, short: bool, room: usize) -> Result<(), Refusal>
    ensures { refused result ≡ write_refusal net.now w h (short || no_room w h room) }
{
    let size = Size::new(w, h)?;
    if short_net(net, size) {
        return Err(Refusal::Short);
    }
    if short || room < file_size(size) {
        return Err(Refusal::Room);
    }
    if net_beyond(net, size) {
        return Err(Refusal::Range);
    }
    Ok(())
}

// The words of the control point that begins at a place of the net.
fn store_numbers(net: &[i32], from: usize, at: usize, out: &mut [u8])
    requires { (from + 3 ≤ length net.now) × (at + point_size ≤ length out.old) × (any_beyond net.now ≡ false) }
    ensures { out.new ≡ sets out.old at (point_bytes net.now from) }
{
    let x = net[from];
    let y = net[from + 1];
    let z = net[from + 2];
    store_number(Kind::X, x, at, out);
    store_number(Kind::Y, y, at + 4, out);
    store_number(Kind::Z, z, at + 8, out);
}

// The words of the first n control points, after two words.
fn store_points(net: &[i32], n: usize, out: &mut [u8])
    requires { (point_stride * n ≤ length net.now) × (point_place n ≤ length out.old)
        × (any_beyond net.now ≡ false) }
    ensures { out.new
        ≡ sets out.old head_size (runs n (λ i. point_bytes net.now (point_stride * i))) }
{
    for i in 0..n {
        store_numbers(net, POINT_STRIDE * i, HEAD_SIZE + POINT_SIZE * i, out);
    }
}

// The whole file.
fn store_file(net: &[i32], size: Size, out: &mut [u8])
    requires { (numbers size.w size.h ≤ length net.now) × (file_size size.w size.h ≤ length out.old)
        × (any_beyond net.now ≡ false) }
    ensures { out.new ≡ over (net_file net.now size.w size.h) out.old }
{
    let n = 3 * (size.w * size.h);
    store_word(Kind::Width, size.w as u32, 0, out);
    store_word(Kind::Height, size.h as u32, 4, out);
    store_points(net, n, out);
    store_word(Kind::End, 0, HEAD_SIZE + POINT_SIZE * n, out);
}

// The same as `write`, for the crates above: `short` is whether another output that they were lent is too short, which
// is 5 too.
pub fn write_with(
    net: &[i32],
    w: usize,
    h: usize,
    short: bool,
    out: &mut [u8],
) -> Result<usize, Refusal>
    ensures result_value { write_outcome result
        ≡ write_answer_with net.now w h (short || no_room w h (length out.old)) }
    ensures out_after { out.new
        ≡ write_output_with net.now w h (short || no_room w h (length out.old))
        out.old }
{
    write_refusal(net, w, h, short, out.len())?;
    let size = Size { w, h };
    let n = STRIDE * (w * h);
    store_file(&net[0..n], size, out);
    Ok(file_size(size))
}

// The net's file over the front of `out` and the count of its bytes, or the first of 1, 2, 5, 3.
pub fn write(net: &[i32], w: usize, h: usize, out: &mut [u8]) -> Result<usize, Refusal>
    ensures result_value { write_outcome result ≡ write_answer net.now w h out.old }
    ensures out_after { out.new ≡ write_output net.now w h out.old }
{
    write_with(net, w, h, false, out)
}
