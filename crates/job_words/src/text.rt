//! The text that tells how the places of a job ended.
ghost use Rattle.std.specs.Prelude.{◌≡◌, ◌+◌, ◌≤◌, ◌++◌, codes, decimal, length};
ghost use Rattle.arrayvec.specs.ArrayVec.{array_vec_len};
ghost use Rattle.job_words.specs.Ends.{job_text, kind_text};
ghost use Rattle.opened_cache.specs.Texts.{Sends};
ghost use Rattle.sessions.specs.Outside.{OutputChange, counts};

use arrayvec::ArrayVec;
use command_status::Status;
use http_wire::ByteSink;
use job_forms::JobKind;
use job_places::Tally;
use opened_cache::write_text;
use tile_requests::{add, add_number};

/// The name of what a job does, as its text spells it.
fn kind_text(kind: JobKind) -> &'static [u8]
    ensures text { result.now ≡ kind_text kind }
    ensures short { length result.now ≤ 8 }
{
    match kind {
        JobKind::Seed => b"seed",
        JobKind::Reseed => b"reseed",
        JobKind::Truncate => b"truncate",
    }
}

/// Adds a label of at most 20 bytes and a number.
fn add_numbered(text: &mut ArrayVec<u8, 1024>, label: &[u8], number: u64)
    requires label { length label.now ≤ 20 }
    requires room { array_vec_len text.old + 40 ≤ 1024 }
    ensures items { text.new.items ≡ text.old.items ++ label.now ++ decimal number }
    ensures len { array_vec_len text.new ≤ array_vec_len text.old + 40 }
{
    add(text, label);
    add_number(text, number);
}

/// Writes how the places of a job ended: `Done` where the text went out, `WriteFault` where a write failed.
pub fn told_tally<O: ByteSink>(output: &mut O, kind: JobKind, tally: &Tally) -> Status
    ensures { Sends (record { writes = counts (O.faults output.old) (O.faults output.new); from = O.taken output.old; to = O.taken output.new }) (job_text kind tally.now) result }
{
    let mut text = ArrayVec::new();
    add(&mut text, b"job ");
    add(&mut text, kind_text(kind));
    add_numbered(&mut text, b" places ", tally.places);
    add_numbered(&mut text, b" done ", tally.done);
    add_numbered(&mut text, b" failed ", tally.failed);
    write_text(output, text, b"\n")
}
