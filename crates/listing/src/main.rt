// The listing program: a net file from standard input, refined once, and the points of its vertices as text; or the
// number of its first fault.
#![tactic(auto)]

ghost use Rattle.std.specs.Prelude.{◌+◌, ◌*◌, ◌≤◌, ◌<◌, length};
ghost use Rattle.net.specs.Refusals.{AcceptedNet};
ghost use Rattle.listing_text.specs.Listing.{longest_line};

use listing_input::{BUFFER_SIZE, INPUT_SIZE, refine_input};
use listing_text::{list_pieces, list_refusal};
use net::Refusal;
use std::io::Read;

// So many bytes of the listing are collected before they are written. The longest listing, of at most 1,821 lines of at
// most 46 bytes each, then takes at most six writes.
const TEXT_SIZE: usize = 16384;

// Reads until the buffer is full, the input ends or a read fails; answers how many bytes stand at the buffer's front. A
// `while`: a read gives as many bytes as it likes.
fn read_full(input: &mut impl Read, buffer: &mut [u8]) -> usize
    ensures { result ≤ length buffer.new }
{
    let mut done = 0;
    while done < buffer.len() {
        let n = input.read(&mut buffer[done..]).unwrap_or(0);
        if n == 0 {
            break;
        }
        done += n;
    }
    done
}

// The pieces from n on that are sure to fit into the buffer, in one write; answers which comes next. Where they could
// not be written none does, so that nothing is written after them. Callers in this file establish its precondition and
// that of `print_listing`.
fn print_pieces(
    rt: &impl Print,
    net: &[i32],
    w: usize,
    h: usize,
    n: usize,
    buffer: &mut [u8],
) -> usize
    requires { AcceptedNet net.now w h × (n ≤ w * h) × (longest_line ≤ length buffer.old) }
    ensures { (n < result) × (result ≤ 1 + w * h) }
{
    let collected = list_pieces(net, w, h, n, buffer);
    let count = collected.count;
    if rt.write_all(&buffer[..count]).is_ok() {
        return collected.next;
    }
    1 + w * h
}

// The pieces one after the other. A `while`: how many go out at once, `print_pieces` tells.
fn print_listing(rt: &impl Print, net: &[i32], w: usize, h: usize)
    requires { AcceptedNet net.now w h }
{
    let pieces = 1 + w * h;
    let mut buffer = [0u8; TEXT_SIZE];
    let mut n = 0;
    while n < pieces {
        n = print_pieces(rt, net, w, h, n, &mut buffer);
    }
}

// The line of a refusal.
fn print_refusal(rt: &impl Print, refusal: Refusal) {
    let mut line = [0u8; 64];
    let count = list_refusal(refusal.number(), &mut line);
    let _ = rt.write_all(&line[..count]);
}

// The buffers have the sizes that the library names and holds them to. Nothing is printed before it is known whether
// something is refused.
fn main(rt: HostRuntime) {
    let mut input = [0u8; INPUT_SIZE];
    let count = read_full(&mut rt.stdin(), &mut input);
    let mut net = [0i32; BUFFER_SIZE];
    let mut refined = [0i32; BUFFER_SIZE];
    match refine_input(&input, count, &mut net, &mut refined) {
        Ok((w, h)) => print_listing(&rt, &refined, w, h),
        Err(refusal) => print_refusal(&rt, refusal),
    }
}
