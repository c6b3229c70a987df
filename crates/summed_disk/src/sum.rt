//! The sum of a part of a blob.
ghost use Rattle.std.specs.Prelude.{◌≡◌, ◌≤◌, ◌<◌, ◌+◌, ◌*◌, ℕ, length, slice_index};
ghost use Rattle.summed_disk.specs.Sum.{multiplier, part_sum, step, word};

use byteorder::{ByteOrder, LittleEndian};
use disk_model::BlobPart;

const MULTIPLIER: u64 = 0x9E37_79B9_7F4A_7C15;

/// How many bytes the four lanes take at a time, a word each.
const GROUP: usize = 32;

/// Four numbers, which take the words of a text in turns. A processor works at all four at once.
#[derive(Drop)]
struct Lanes {
    a: u64,
    b: u64,
    c: u64,
    d: u64,
}

/// A lane that has taken a word.
#[tactic(auto, unfolding(crate::specs::Sum::step))]
fn step(lane: u64, word: u64) -> u64
    ensures { result ≡ step lane word }
{
    let mixed = lane ^ word;
    (mixed ^ (mixed >> 32)).wrapping_mul(MULTIPLIER)
}

/// The eight bytes from a place on, as a number, the lowest first.
#[tactic(auto, using(crate::proofs::Words::word_read))]
fn word(bytes: &[u8], at: usize) -> u64
    requires { at + 8 ≤ length bytes.now }
    ensures { result ≡ word bytes.now at }
{
    LittleEndian::read_u64(&bytes[at..])
}

/// The lanes once each has taken its word of the group of bytes at a place.
fn stepped(lanes: &Lanes, bytes: &[u8], at: usize) -> Lanes
    requires { at + 32 ≤ length bytes.now }
    ensures a { result.a ≡ step lanes.now.a (word bytes.now at) }
    ensures b { result.b ≡ step lanes.now.b (word bytes.now (at + 8)) }
    ensures c { result.c ≡ step lanes.now.c (word bytes.now (at + 16)) }
    ensures d { result.d ≡ step lanes.now.d (word bytes.now (at + 24)) }
{
    Lanes {
        a: step(lanes.a, word(bytes, at)),
        b: step(lanes.b, word(bytes, at + 8)),
        c: step(lanes.c, word(bytes, at + 16)),
        d: step(lanes.d, word(bytes, at + 24)),
    }
}

/// Fewer bytes than a group, filled up with zeros.
fn filled_up(rest: &[u8]) -> [u8; GROUP]
    requires { length rest.now < 32 }
    ensures { (k : ℕ) → slice_index result k ≡ slice_index rest.now k }
{
    let mut group = [0; GROUP];
    group[..rest.len()].copy_from_slice(rest);
    group
}

/// The lanes once they have taken the bytes from a place on, which are fewer than a group, filled up with zeros.
fn stepped_last(lanes: &Lanes, bytes: &[u8], at: usize) -> Lanes
    requires begins { at ≤ length bytes.now }
    requires short { length bytes.now < at + 32 }
    ensures a { result.a ≡ step lanes.now.a (word bytes.now at) }
    ensures b { result.b ≡ step lanes.now.b (word bytes.now (at + 8)) }
    ensures c { result.c ≡ step lanes.now.c (word bytes.now (at + 16)) }
    ensures d { result.d ≡ step lanes.now.d (word bytes.now (at + 24)) }
{
    let group = filled_up(&bytes[at..]);
    stepped(lanes, &group, 0)
}

/// The sum of the bytes of a part of a blob. It is another one for each other text of the same length that differs from it within one word
/// of eight bytes, and for any other bytes, renders and places it is another but for odds of 1 in 2^64.
pub fn part_sum(part: BlobPart, bytes: &[u8]) -> u64
    ensures { result ≡ part_sum part.number part.from bytes.now }
{
    let mut lanes = Lanes {
        a: step(MULTIPLIER, part.number),
        b: step(MULTIPLIER, u64::from(part.from)),
        c: step(MULTIPLIER, bytes.len() as u64),
        d: step(MULTIPLIER, 0),
    };
    let groups = bytes.len() / GROUP;
    for n in 0..groups {
        lanes = stepped(&lanes, bytes, GROUP * n);
    }
    let lanes = stepped_last(&lanes, bytes, GROUP * groups);
    step(step(step(lanes.a, lanes.b), lanes.c), lanes.d)
}
