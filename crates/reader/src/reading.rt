// The reader: the whole file is checked before the first number is stored. Callers in this file establish the
// preconditions of the inner functions.
ghost use Rattle.std.specs.Prelude.{◌≡◌, ◌||◌, [], ◌∷◌, ◌+◌, ◌*◌, ◌≤◌, ltb, length};
ghost use Rattle.exact.specs.Filling.{over, runs};
ghost use Rattle.net.specs.Net.{numbers, point_stride};
ghost use Rattle.net.specs.Refusals.{first_fault};
ghost use Rattle.net.specs.Results.{refused};
ghost use Rattle.words.specs.NetFile.{word_payload, first_word, first_point, from_point, head_size, point_size, point_place};
ghost use Rattle.words.specs.Kinds.{kind_number};
ghost use Rattle.words.specs.Answers.{word_outcome, answer};
ghost use Rattle.reader.specs.Refusals.{side_faults, number_faults, point_faults, end_faults, body_faults, short_for};
ghost use Rattle.reader.specs.Answers.{read_outcome, head_answer, read_answer_with, read_net_with, read_answer, read_net};

use net::{POINT_STRIDE, Refusal, STRIDE, Size, bad_side, number_beyond, store_point};
use words::{HEAD_SIZE, Kind, POINT_SIZE, first_number, parse_word, signed_number};

// A side's word: its payload, or 7, 8 or 1.
fn parse_side(left: &[u8], kind: Kind) -> Result<u32, Refusal>
    ensures { word_outcome result
        ≡ answer (first_fault (side_faults left.now (kind_number kind)))
        (word_payload (first_word left.now) ∷ []) }
{
    let side = parse_word(left, kind)?;
    if bad_side(side as usize) {
        return Err(Refusal::Size);
    }
    Ok(side)
}

// The two sides where the lent net has room for their numbers, or 5. For sides that passed their test.
fn sized(size: Size, short: bool, room: usize) -> Result<(usize, usize), Refusal>
    ensures { read_outcome result ≡ answer (first_fault ((short || ltb room (numbers size.w size.h), 5) ∷ []))
        (size.w ∷ size.h ∷ []) }
{
    if short || room < STRIDE * (size.w * size.h) {
        return Err(Refusal::Room);
    }
    Ok((size.w, size.h))
}

// The two sides, or the first fault up to 5.
fn parse_head(file: &[u8], short: bool, room: usize) -> Result<(usize, usize), Refusal>
    ensures { read_outcome result ≡ head_answer file.now (short || short_for file.now room) }
{
    let w = parse_side(file, Kind::Width)?;
    let h = parse_side(&file[4..], Kind::Height)?;
    let size = Size {
        w: w as usize,
        h: h as usize,
    };
    sized(size, short, room)
}

// 7, 8 or 3 of a number's word.
fn number_refusal(left: &[u8], kind: Kind) -> Result<(), Refusal>
    ensures { refused result ≡ first_fault (number_faults left.now (kind_number kind)) }
{
    let payload = parse_word(left, kind)?;
    if number_beyond(signed_number(payload)) {
        return Err(Refusal::Range);
    }
    Ok(())
}

// The same of the three words of a control point.
fn point_refusal(left: &[u8]) -> Result<(), Refusal>
    ensures { refused result ≡ first_fault (point_faults left.now) }
{
    number_refusal(left, Kind::X)?;
    number_refusal(&left[4..], Kind::Y)?;
    number_refusal(&left[8..], Kind::Z)
}

// The same of n control points whose words are all there. A part of twelve bytes at a time: its length is known, so
// that no length is tested.
fn whole_points_refusal(file: &[u8], n: usize) -> Result<(), Refusal>
    requires { point_place n ≤ length file.now }
    ensures { refused result ≡ first_fault (runs n (λ i. point_faults (from_point file.now i))) }
{
    for i in 0..n {
        let at = HEAD_SIZE + POINT_SIZE * i;
        point_refusal(&file[at..at + POINT_SIZE])?;
    }
    Ok(())
}

// The same of n control points: those that are whole, and the one after them where the file ends in it.
fn points_refusal(file: &[u8], n: usize) -> Result<(), Refusal>
    requires { head_size ≤ length file.now }
    ensures { refused result ≡ first_fault (runs n (λ i. point_faults (from_point file.now i))) }
{
    let whole = n.min((file.len() - HEAD_SIZE) / POINT_SIZE);
    whole_points_refusal(file, whole)?;
    if whole < n {
        return point_refusal(&file[HEAD_SIZE + POINT_SIZE * whole..]);
    }
    Ok(())
}

// 7, 8 or 9 of the end word.
fn end_refusal(left: &[u8]) -> Result<(), Refusal>
    ensures { refused result ≡ first_fault (end_faults left.now) }
{
    let payload = parse_word(left, Kind::End)?;
    if payload != 0 {
        return Err(Refusal::WrongWord);
    }
    if 4 < left.len() {
        return Err(Refusal::Trailing);
    }
    Ok(())
}

// The first fault after the two sides.
fn body_refusal(file: &[u8], n: usize) -> Result<(), Refusal>
    requires { head_size ≤ length file.now }
    ensures { refused result ≡ first_fault (body_faults file.now n) }
{
    points_refusal(file, n)?;
    end_refusal(&file[HEAD_SIZE + POINT_SIZE * n..])
}

// The control point in the first three words.
fn first_point(bytes: &[u8]) -> [i32; 3]
    requires { point_size ≤ length bytes.now }
    ensures { result ≡ first_point bytes.now }
{
    let x = first_number(bytes);
    let y = first_number(&bytes[4..]);
    let z = first_number(&bytes[8..]);
    [x, y, z]
}

// The numbers of n control points over the front of the lent net.
fn load_points(file: &[u8], n: usize, net: &mut [i32])
    requires { (point_place n ≤ length file.now) × (point_stride * n ≤ length net.old) }
    ensures { net.new
        ≡ over (runs n (λ i. first_point (from_point file.now i))) net.old }
{
    for i in 0..n {
        store_point(
            first_point(&file[HEAD_SIZE + POINT_SIZE * i..]),
            POINT_STRIDE * i,
            net,
        );
    }
}

// What `read_with` answers for a lent net of `room` numbers, without one: for a caller who has more to refuse before
// anything is written.
pub fn check_file(file: &[u8], short: bool, room: usize) -> Result<(usize, usize), Refusal>
    ensures { read_outcome result ≡ read_answer_with file.now (short || short_for file.now room) }
{
    let (w, h) = parse_head(file, short, room)?;
    body_refusal(file, 3 * (w * h))?;
    Ok((w, h))
}

// The same as `read`, for the crates above: `short` is whether another output that they were lent is too short, which
// is 5 too.
pub fn read_with(file: &[u8], short: bool, net: &mut [i32]) -> Result<(usize, usize), Refusal>
    ensures result_value { read_outcome result
        ≡ read_answer_with file.now (short || short_for file.now (length net.old)) }
    ensures net_after { net.new
        ≡ read_net_with file.now (short || short_for file.now (length net.old))
        net.old }
{
    let (w, h) = check_file(file, short, net.len())?;
    load_points(file, 3 * (w * h), net);
    Ok((w, h))
}

// The net of a file over the front of `net`, with its width and height, or the first fault in the order of the bytes.
pub fn read(file: &[u8], net: &mut [i32]) -> Result<(usize, usize), Refusal>
    ensures result_value { read_outcome result ≡ read_answer file.now net.old }
    ensures net_after { net.new ≡ read_net file.now net.old }
{
    read_with(file, false, net)
}
