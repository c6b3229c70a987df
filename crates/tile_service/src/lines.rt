//! The lines of a schedule: where each ends, and the action that it says.
ghost use Rattle.std.specs.Option.{option_map};
ghost use Rattle.std.specs.Prelude.{◌≡◌, ◌<◌, ◌≤◌, ◌∷◌, length};
ghost use Rattle.tile_requests.specs.Shown.{shown_message};
ghost use Rattle.tile_service.specs.Lines.{lines_of, line_length, get, post, action_with, says_nothing, action_in};
ghost use Rattle.tile_service.specs.Shown.{shown_action};

use http_wire::Method;
use schedule_text::{LINE_LIMIT, Verb, read_line};
use tile_requests::{MessageRef, Mode};

/// What a line says.
#[derive(Clone, Copy)]
pub enum Action<'a> {
    Nothing,
    /// This actor sends this message.
    Sends(Mode, u32, MessageRef<'a>),
    /// This actor makes the next event of its pending request.
    Steps(u32),
}

fn line_length(text: &[u8]) -> usize
    ensures value { result ≡ line_length text.now }
    ensures bound { result ≤ length text.now }
{
    let mut count = 0;
    for byte in text {
        if *byte == b'\n' {
            return count;
        }
        count += 1;
    }
    count
}

/// The first line of a text, and what stands after it.
#[tactic(auto, using(crate::proofs::FirstLine::lines_split_at, crate::proofs::FirstLine::no_more))]
pub fn split_line(text: &[u8]) -> (&[u8], &[u8])
    requires { 0 < length text.now }
    ensures lines { lines_of text.now ≡ result.0.now ∷ lines_of result.1.now }
    ensures shorter { length result.1.now < length text.now }
{
    let (line, rest) = text.split_at(line_length(text));
    if rest.is_empty() {
        return (line, rest);
    }
    let (_, next) = rest.split_at(1);
    (line, next)
}

/// Whether a line is empty or a comment.
fn says_nothing(line: &[u8]) -> bool
    ensures { result ≡ says_nothing line.now }
{
    match line {
        [] => true,
        [first, ..] => *first == b'#',
    }
}

/// The message of method GET for a target.
fn get(target: &[u8]) -> MessageRef<'_>
    ensures { shown_message result ≡ get target.now }
{
    MessageRef {
        method: Method::Get,
        target,
        body: b"",
    }
}

/// The message of method POST for a target, with a body.
fn post<'a>(target: &'a [u8], body: &'a [u8]) -> MessageRef<'a>
    ensures { shown_message result ≡ post target.now body.now }
{
    MessageRef {
        method: Method::Post,
        target,
        body,
    }
}

/// The action of an actor by a verb, with the rest of its line.
fn action_with(actor: u32, verb: Verb, rest: &[u8]) -> Action<'_>
    ensures { shown_action result ≡ action_with actor verb rest.now }
{
    match verb {
        Verb::Get => Action::Sends(Mode::Gets, actor, get(rest)),
        Verb::Ask => Action::Sends(Mode::Asks, actor, get(rest)),
        Verb::Force => Action::Sends(Mode::Forces, actor, get(rest)),
        Verb::Step => Action::Steps(actor),
        Verb::Truncate => Action::Sends(Mode::Gets, actor, post(b"/truncate", rest)),
        Verb::Expire => Action::Sends(Mode::Gets, actor, post(b"/expire", b"")),
    }
}

/// The action that a line says; `None` where it is refused.
#[tactic(auto, unfolding(crate::specs::Lines::action_in))]
pub fn action_in(line: &[u8]) -> Option<Action<'_>>
    ensures { option_map shown_action result ≡ action_in line.now }
{
    if line.len() > LINE_LIMIT {
        return None;
    }
    if says_nothing(line) {
        return Some(Action::Nothing);
    }
    let Ok(read) = read_line(line) else {
        return None;
    };
    let (_, rest) = line.split_at(read.rest.start as usize);
    Some(action_with(read.actor, read.verb, rest))
}
