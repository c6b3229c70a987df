//! The lines of a schedule, and why a text is none.
ghost use Rattle.std.specs.Prelude.{◌≡◌, ◌≤◌, ℕ, ◌+◌, ◌<◌, length, slice_index, IfOk};
ghost use Rattle.std.specs.Str.Parse.{AllDigits};
ghost use Rattle.schedule_text.specs.Line.{digits_len, actor_of, line_of};

use crate::verb::{Verb, verb_of};
use metatile_plan::Span;

/// One line: the number of its actor, 0 to 63, what the actor does, and where the rest stands in the line.
#[derive(Clone, Copy, PartialEq, Eq)]
pub struct Line {
    pub actor: u32,
    pub verb: Verb,
    /// The target or the cover, in bytes from the line's start; empty at its end where the verb takes none.
    pub rest: Span,
}

/// Why a text is no line.
#[derive(Clone, Copy, Debug, PartialEq, Eq)]
pub enum LineFault {
    /// It does not begin with 0, or with 1 to 63 without a leading zero, and one space.
    NoActor,
    /// What follows the actor has the form of no verb.
    NoVerb,
    /// It has more than 16,384 bytes.
    TooLong,
}

/// The most bytes of a line.
pub const LINE_LIMIT: usize = 16_384;

/// How many ASCII digits a text begins with.
pub fn digits_len(text: &[u8]) -> usize
    ensures value { result ≡ digits_len text.now }
    ensures within { result ≤ length text.now }
    ensures digits { (k : ℕ) → k < result → (48 ≤ slice_index text.now k) × (slice_index text.now k ≤ 57) }
{
    for (place, byte) in text.iter().enumerate() {
        if !byte.is_ascii_digit() {
            return place;
        }
    }
    text.len()
}

/// The actor that digits name.
fn actor_of(digits: &[u8]) -> Option<u32>
    requires { (k : ℕ) → k < length digits.now → (48 ≤ slice_index digits.now k) × (slice_index digits.now k ≤ 57) }
    ensures { result ≡ actor_of digits.now }
{
    let actor = match digits {
        [one] => u32::from(*one - b'0'),
        [ten, one] if *ten != b'0' => 10 * u32::from(*ten - b'0') + u32::from(*one - b'0'),
        _ => return None,
    };
    if actor < 64 { Some(actor) } else { None }
}

/// Reads one line, without its line feed. Each fault comes exactly where `LineFault` says, `TooLong` first.
pub fn read_line(line: &[u8]) -> Result<Line, LineFault>
    ensures line { result ≡ line_of line.now }
    ensures within { IfOk result (λ read. read.rest.start + read.rest.length ≡ length line.now) }
{
    if line.len() > LINE_LIMIT {
        return Err(LineFault::TooLong);
    }
    let count = digits_len(line);
    let (digits, behind) = line.split_at(count);
    let Some(actor) = actor_of(digits) else {
        return Err(LineFault::NoActor);
    };
    let [b' ', text @ ..] = behind else {
        return Err(LineFault::NoActor);
    };
    let Some(verb) = verb_of(text) else {
        return Err(LineFault::NoVerb);
    };
    let start = count + 1 + verb.word().len();
    Ok(Line {
        actor,
        verb,
        rest: Span {
            start: start as u32,
            length: (line.len() - start) as u32,
        },
    })
}
