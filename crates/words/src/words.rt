// Words in bytes: a word's two parts, its bytes, high byte first, and two's complement in 28 bits.
ghost use Rattle.std.specs.Prelude.{◌≡◌, [], ◌∷◌, ◌+◌, ◌≤◌, ◌<◌, nat_abs, length};
ghost use Rattle.std.proofs.lemmas.List.Edits.{sets};
ghost use Rattle.net.specs.Refusals.{first_fault};
ghost use Rattle.words.specs.NetFile.{word, word_payload, complement, signed, word_bytes, number_bytes, first_word, first_number};
ghost use Rattle.words.specs.Kinds.{kind_number};
ghost use Rattle.words.specs.LowFirst.{swapped_bytes, low_first, low_bytes};
ghost use Rattle.words.specs.Refusals.{word_faults};
ghost use Rattle.words.specs.Answers.{word_outcome, answer};

use crate::kinds::Kind;
use net::Refusal;

// The byte swap of a word. This and the next are not the library's methods: the theorems on `specs/LowFirst.antt`, that
// this way gives document 01's words, are of these steps.
fn swap_bytes(v: u32) -> u32
    ensures { result ≡ swapped_bytes v }
{
    v % 256 * 16777216 + v / 256 % 256 * 65536 + v / 65536 % 256 * 256 + v / 16777216
}

// The word in the first four bytes, first byte lowest: one load.
fn load_low_first(bytes: &[u8]) -> u32
    requires { 4 ≤ length bytes.now }
    ensures { result ≡ low_first bytes.now }
{
    let a = bytes[0] as u32;
    let b = bytes[1] as u32;
    let c = bytes[2] as u32;
    let d = bytes[3] as u32;
    a + b * 256 + c * 65536 + d * 16777216
}

// The word in the first four bytes.
fn first_word(bytes: &[u8]) -> u32
    requires { 4 ≤ length bytes.now }
    ensures { result ≡ first_word bytes.now }
{
    swap_bytes(load_low_first(bytes))
}

// The payload of the word that is due, by its kind, where the bytes that are left begin with one; or 7 or 8.
pub fn parse_word(left: &[u8], kind: Kind) -> Result<u32, Refusal>
    ensures { word_outcome result
        ≡ answer (first_fault (word_faults left.now (kind_number kind)))
        (word_payload (first_word left.now) ∷ []) }
{
    if left.len() < 4 {
        return Err(Refusal::MissingWord);
    }
    let v = first_word(left);
    if v / 268435456 == kind.number() {
        Ok(v % 268435456)
    } else {
        Err(Refusal::WrongWord)
    }
}

// The number of a payload. What is at least half of 2^28 comes round to below half of it, and then below zero. For the
// reader, which takes the payload from a word.
pub fn signed_number(p: u32) -> i32
    requires { p < 268435456 }
    ensures { result ≡ signed p }
{
    let raised = (p + 134217728) % 268435456;
    raised as i32 - 134217728
}

// The number in the first word. For the reader, which has found that the word is there.
pub fn first_number(bytes: &[u8]) -> i32
    requires { 4 ≤ length bytes.now }
    ensures { result ≡ first_number bytes.now }
{
    signed_number(first_word(bytes) % 268435456)
}

// The payload of a number in the net range.
fn complement_of(z: i32) -> u32
    requires { nat_abs z ≤ 16777216 }
    ensures { result ≡ complement z }
{
    let raised = (z + 268435456) as u32;
    raised % 268435456
}

// The bytes of a word, first byte lowest, stored from a place on: one store.
fn store_low_first(v: u32, at: usize, out: &mut [u8])
    requires { at + 4 ≤ length out.old }
    ensures { out.new ≡ sets out.old at (low_bytes v) }
{
    out[at] = (v % 256) as u8;
    out[at + 1] = (v / 256 % 256) as u8;
    out[at + 2] = (v / 65536 % 256) as u8;
    out[at + 3] = (v / 16777216) as u8;
}

// The bytes of a word, stored from a place on. For the writer, which has refused every output that is too short.
pub fn store_word(kind: Kind, payload: u32, at: usize, out: &mut [u8])
    requires { (payload < 268435456) × (at + 4 ≤ length out.old) }
    ensures { out.new ≡ sets out.old at (word_bytes (word (kind_number kind) payload)) }
{
    let v = kind.number() * 268435456 + payload;
    store_low_first(swap_bytes(v), at, out);
}

// The bytes of a number's word, stored from a place on. For the writer, which has refused every number beyond its range
// too.
pub fn store_number(kind: Kind, z: i32, at: usize, out: &mut [u8])
    requires { (nat_abs z ≤ 16777216) × (at + 4 ≤ length out.old) }
    ensures { out.new ≡ sets out.old at (number_bytes (kind_number kind) z) }
{
    let payload = complement_of(z);
    store_word(kind, payload, at, out);
}
