//! The top call that words are for.
ghost use Rattle.std.specs.Prelude.{◌≡◌};
ghost use Rattle.command_words.specs.TopCalls.{first_word, one_word, top_call, two_words};

use exact_ratio::Words;

/// A top call of the program. The first word tells which one words are for; the call itself reads all of them, and tells whether they are of
/// its form.
#[derive(Clone, Copy, PartialEq, Eq)]
pub enum TopCall {
    /// The help text is printed.
    Help,
    /// The help text of the first word is printed.
    WordHelp,
    /// The version is printed.
    Version,
    /// Connections at a port are served on the cache of the disk (`serve_words`).
    Serve,
    /// Numbered changes are made on the cache of the disk.
    Feed,
    /// Tiles of several layers are laid over each other.
    Compose,
    /// A leader and a follower are run over a lossy link.
    Twin,
    /// A leader or a follower is run over a connection.
    Link,
    /// What is kept under another catalogue is taken over.
    Carry,
    /// The files, what is kept, or what a job would do is told, and nothing is changed.
    Look,
    /// The sums of what is kept are written anew.
    Seal,
    /// A command runs once (`word_of`), or the words are none.
    Command,
}

/// The top call that the first word of words names.
fn first_word(word: &[u8]) -> TopCall
    ensures { result ≡ first_word word.now }
{
    if word == b"serve".as_slice() {
        TopCall::Serve
    } else if word == b"feed".as_slice() {
        TopCall::Feed
    } else if word == b"compose".as_slice() {
        TopCall::Compose
    } else if word == b"twin".as_slice() {
        TopCall::Twin
    } else if word == b"lead".as_slice() {
        TopCall::Link
    } else if word == b"follow".as_slice() {
        TopCall::Link
    } else if word == b"carry".as_slice() {
        TopCall::Carry
    } else if word == b"check".as_slice() {
        TopCall::Look
    } else if word == b"list".as_slice() {
        TopCall::Look
    } else if word == b"seal".as_slice() {
        TopCall::Seal
    } else {
        TopCall::Command
    }
}

/// The top call that one word is for.
fn one_word(word: &[u8]) -> TopCall
    ensures { result ≡ one_word word.now }
{
    if word == b"--help".as_slice() {
        TopCall::Help
    } else if word == b"--version".as_slice() {
        TopCall::Version
    } else {
        first_word(word)
    }
}

/// The top call that two words are for.
fn two_words(word: &[u8], after: &[u8]) -> TopCall
    ensures { result ≡ two_words word.now after.now }
{
    if after == b"--help".as_slice() {
        return TopCall::WordHelp;
    }
    if after == b"--dry-run".as_slice() {
        if word == b"job".as_slice() {
            return TopCall::Look;
        }
        return first_word(word);
    }
    first_word(word)
}

/// The top call that words are for; `Command` where no other is.
pub fn top_call(words: &[Words]) -> TopCall
    ensures { result ≡ top_call words.now }
{
    match words {
        [] => TopCall::Command,
        [word] => one_word(word.bytes()),
        [word, after] => two_words(word.bytes(), after.bytes()),
        [word, ..] => first_word(word.bytes()),
    }
}
