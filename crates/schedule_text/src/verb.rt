//! The verbs of a schedule, and what may stand after each.
ghost use Rattle.std.specs.Prelude.{◌≡◌, ◌≤◌, length, find, IsTrue, IfSome};
ghost use Rattle.schedule_text.specs.Line.{word, is_target, has_rest, has_form, verb_of};

/// What an actor of a schedule does.
#[derive(Clone, Copy, PartialEq, Eq)]
pub enum Verb {
    /// Requests a target, and is answered in the same line where that can be.
    Get,
    /// Makes the ask of a target alone.
    Ask,
    /// Makes the force of a target's metatile alone.
    Force,
    /// Goes one event further.
    Step,
    /// Truncates what a cover covers.
    Truncate,
    /// Makes one expiry.
    Expire,
}

const VERBS: [Verb; 6] = [
    Verb::Get,
    Verb::Ask,
    Verb::Force,
    Verb::Step,
    Verb::Truncate,
    Verb::Expire,
];

/// One byte or more, and no space.
fn is_target(rest: &[u8]) -> bool
    ensures { result ≡ is_target rest.now }
{
    !rest.is_empty() && !rest.contains(&b' ')
}

impl Verb {
    /// How the verb is spelt, with the space after it where a rest follows.
    pub fn word(self) -> &'static [u8]
        ensures value { result.now ≡ word self }
        ensures short { length result.now ≤ 9 }
    {
        match self {
            Verb::Get => b"GET ",
            Verb::Ask => b"ASK ",
            Verb::Force => b"FORCE ",
            Verb::Step => b"STEP",
            Verb::Truncate => b"TRUNCATE ",
            Verb::Expire => b"EXPIRE",
        }
    }

    /// Whether this may stand after the verb's word.
    fn has_rest(self, rest: &[u8]) -> bool
        ensures { result ≡ has_rest self rest.now }
    {
        match self {
            Verb::Get | Verb::Ask | Verb::Force => is_target(rest),
            Verb::Truncate => !rest.is_empty(),
            Verb::Step | Verb::Expire => rest.is_empty(),
        }
    }

    fn has_form(self, text: &[u8]) -> bool
        ensures value { result ≡ has_form self text.now }
        ensures long { IsTrue result → length (word self) ≤ length text.now }
    {
        match text.strip_prefix(self.word()) {
            Some(rest) => self.has_rest(rest),
            None => false,
        }
    }
}

/// The first of the verbs of which a text has the form.
fn first_of(verbs: &[Verb], text: &[u8]) -> Option<Verb>
    ensures value { result ≡ find (λ verb. has_form verb text.now) verbs.now }
    ensures long { IfSome result (λ verb. length (word verb) ≤ length text.now) }
{
    for verb in verbs {
        if verb.has_form(text) {
            return Some(*verb);
        }
    }
    None
}

/// The verb of which a text has the form.
pub fn verb_of(text: &[u8]) -> Option<Verb>
    ensures value { result ≡ verb_of text.now }
    ensures long { IfSome result (λ verb. length (word verb) ≤ length text.now) }
{
    first_of(&VERBS, text)
}
