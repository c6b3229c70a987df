//! The words of a command that runs once; those of a server stand in `serve_words`.
ghost use Rattle.std.specs.Prelude.{◌≡◌};
ghost use Rattle.command_words.specs.Words.{kept_word, number_of, one_word, two_words, word_of};

use exact_ratio::Words;
use wmts_kvp::{below, is_number};

/// What the words of a command ask for.
#[derive(Clone, Copy, PartialEq, Eq)]
pub enum Word {
    /// A run on a cabinet in memory.
    InMemory(MemoryWord),
    /// A run on the cache of the disk.
    Kept(KeptWord),
    /// A step of upkeep on the cache of the disk. It reads no capabilities document, and renders nothing.
    Upkeep(UpkeepWord),
    /// The job that the input has is run on the cache of the disk, place by place. It reads no capabilities document.
    Job,
}

/// A run on a cabinet in memory, of which nothing is left.
#[derive(Clone, Copy, PartialEq, Eq)]
pub enum MemoryWord {
    /// The lines of the input are run.
    Schedule,
    /// The input is served as the bytes of one connection.
    Replay,
    /// The drill of this number is made and run.
    Drill(u32),
}

/// A run on the cache of the disk.
#[derive(Clone, Copy, PartialEq, Eq)]
pub enum KeptWord {
    /// The lines of the input are run.
    Schedule,
    /// The input is served as the bytes of one connection.
    Replay,
}

/// A step of upkeep on the cache of the disk.
#[derive(Clone, Copy, PartialEq, Eq)]
pub enum UpkeepWord {
    /// An empty cache is made, whatever stood there.
    Make,
    /// The cover that the input has is truncated.
    Truncate,
    /// Metatiles are dropped until no quota is exceeded.
    Expire,
    /// What is kept is told.
    Usage,
}

/// The most digits of a drill's number.
const MOST_DIGITS: usize = 9;

/// The number of 1 to 9 digits; leading zeros are allowed.
#[tactic(auto, using(crate::proofs::Numbers::below_limit))]
fn number_of(digits: &[u8]) -> Option<u32>
    ensures { result ≡ number_of digits.now }
{
    if digits.len() > MOST_DIGITS {
        return None;
    }
    if !is_number(digits) {
        return None;
    }
    below(1_000_000_000, digits)
}

/// What one word asks for.
fn one_word(word: &[u8]) -> Option<Word>
    ensures { result ≡ one_word word.now }
{
    if word == b"schedule".as_slice() {
        Some(Word::InMemory(MemoryWord::Schedule))
    } else if word == b"replay".as_slice() {
        Some(Word::InMemory(MemoryWord::Replay))
    } else if word == b"make".as_slice() {
        Some(Word::Upkeep(UpkeepWord::Make))
    } else if word == b"truncate".as_slice() {
        Some(Word::Upkeep(UpkeepWord::Truncate))
    } else if word == b"expire".as_slice() {
        Some(Word::Upkeep(UpkeepWord::Expire))
    } else if word == b"usage".as_slice() {
        Some(Word::Upkeep(UpkeepWord::Usage))
    } else if word == b"job".as_slice() {
        Some(Word::Job)
    } else {
        None
    }
}

/// What one word and `--kept` ask for.
fn kept_word(word: &[u8]) -> Option<Word>
    ensures { result ≡ kept_word word.now }
{
    if word == b"schedule".as_slice() {
        Some(Word::Kept(KeptWord::Schedule))
    } else if word == b"replay".as_slice() {
        Some(Word::Kept(KeptWord::Replay))
    } else {
        None
    }
}

/// What two words ask for.
fn two_words(word: &[u8], after: &[u8]) -> Option<Word>
    ensures { result ≡ two_words word.now after.now }
{
    if word == b"drill".as_slice() {
        Some(Word::InMemory(MemoryWord::Drill(number_of(after)?)))
    } else if after == b"--kept".as_slice() {
        kept_word(word)
    } else {
        None
    }
}

/// What words ask for; `None` exactly where they are no command.
pub fn word_of(words: &[Words]) -> Option<Word>
    ensures { result ≡ word_of words.now }
{
    match words {
        [word] => one_word(word.bytes()),
        [word, after] => two_words(word.bytes(), after.bytes()),
        _ => None,
    }
}
