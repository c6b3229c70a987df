//! The summary of a drill: a line of counts and a line of the digest, which take no memory.
ghost use Rattle.std.specs.Io.KnownBytes.{Appends};
ghost use Rattle.std.specs.Prelude.{◌≡◌, ◌+◌, ◌^◌, ◌<◌, ◌≤◌, ◌++◌, decimal, length, OnErr, OnOk};
ghost use Rattle.arrayvec.specs.ArrayVec.{array_vec_len};
ghost use Rattle.base.specs.Causes.{HasCause};
ghost use Rattle.tile_drill.specs.Drill.{counts_text, digest_text};
ghost use Rattle.tile_requests.specs.Sent.{AppendsFront};
ghost use Rattle.tile_service.specs.CacheTally.{total};

use arrayvec::ArrayVec;
use http_wire::{ByteSink, Sent};
use tile_requests::{add, add_number, send_behind};
use tile_service::CacheTally;

/// Adds a label and the number after it.
fn add_count(text: &mut ArrayVec<u8, 1024>, label: &[u8], number: u64)
    requires { array_vec_len text.old + length label.now + 20 ≤ 1024 }
    ensures items { text.new.items ≡ text.old.items ++ label.now ++ decimal number }
    ensures len { array_vec_len text.new ≤ array_vec_len text.old + length label.now + 20 }
{
    add(text, label);
    add_number(text, number);
}

/// The line of the counts. It takes no memory.
fn counts_text(number: u32, tally: &CacheTally) -> ArrayVec<u8, 1024>
    requires { total tally.now < 2 ^ 64 }
    ensures items { result.items ≡ counts_text number (total tally.now) tally.now }
    ensures short { array_vec_len result ≤ 256 }
{
    let mut text = ArrayVec::new();
    add_count(&mut text, b"drill ", u64::from(number));
    add_count(&mut text, b" lines 4096 answers ", tally.total());
    add_count(&mut text, b" hits ", tally.hits);
    add_count(&mut text, b" misses ", tally.misses);
    add_count(&mut text, b" other ", tally.others);
    add(&mut text, b"\n");
    text
}

/// The line of the digest. It takes no memory.
#[tactic(auto, unfolding(crate::specs::Drill::digest_text))]
fn digest_text(digest: &[u8; 32]) -> ArrayVec<u8, 1024>
    ensures { result.items ≡ digest_text digest.now }
{
    let mut hex = [0; 64];
    if hex::encode_to_slice(digest.as_slice(), &mut hex).is_err() {
        unreachable!()
    }
    let mut text = ArrayVec::new();
    add(&mut text, b"sha256 ");
    add(&mut text, hex.as_slice());
    add(&mut text, b"\n");
    text
}

/// Writes the summary of a drill, or a front of it where a write fails.
pub fn send_summary<O: ByteSink>(
    output: &mut O,
    number: u32,
    tally: &CacheTally,
    digest: &[u8; 32],
) -> Result<(), Sent>
    requires { total tally.now < 2 ^ 64 }
    ensures ok { OnOk result (Appends (O.taken output.old) (O.taken output.new) (counts_text number (total tally.now) tally.now ++ digest_text digest.now)) }
    ensures err { OnErr result (AppendsFront (O.taken output.old) (O.taken output.new) (counts_text number (total tally.now) tally.now ++ digest_text digest.now)) }
    ensures cause { HasCause (O.faults output.old) (O.faults output.new) result }
{
    let counts = counts_text(number, tally);
    let digest_line = digest_text(digest);
    send_behind(output, counts, digest_line.as_slice())
}
