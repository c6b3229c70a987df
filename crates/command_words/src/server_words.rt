//! The words after `serve`: the port, and how many connections.
ghost use Rattle.std.specs.Prelude.{◌≡◌, ◌⊎◌, Ok, Err, Some, None, All, IfErr, IfOk, IfSome, IsUtf8, List, codes, map};
ghost use Rattle.clap.specs.Words.{kind_of};
ghost use Rattle.command_words.specs.ServeOptions.{GivesBoth, IsGiven, IsNumberOption, IsServeCommand, numbers_to};
ghost use Rattle.command_words.specs.ServeWords.{IsServable, plain_words};

use clap::builder::ValueParser;
use clap::error::ErrorKind;
use clap::{Arg, ArgAction, ArgMatches, Command, Error, value_parser};
use exact_ratio::Words;
use std::alloc::{AllocError, AllocFailed, Global};
use std::str::from_utf8;

/// What the words after `serve` ask for.
#[derive(Clone, Copy, PartialEq, Eq)]
pub struct ServeWords {
    /// The port to listen on, 1 to 65,535.
    pub port: u16,
    /// How many connections are served before the end, 1 to 1,000,000.
    pub connections: u32,
}

/// Why the words after `serve` aren't read.
#[derive(Clone, Copy, Debug, PartialEq, Eq)]
pub enum ServeFault {
    /// An option is missing, stands twice or is unknown, its number isn't in its range, or a word isn't UTF-8.
    Usage,
    /// Memory ran out.
    OutOfMemory,
}

impl From<AllocError> for ServeFault {
    ghost use Rattle.std.specs.Prelude.{◌≡◌};
    ghost use Rattle.command_words.specs.declared.server_words.ServeFault.TheVariants.{OutOfMemory};

    ghost from_gives = { λ _ fault. fault ≡ OutOfMemory };

    fn from(_: AllocError) -> Self {
        ServeFault::OutOfMemory
    }
}

impl<T: Drop> From<AllocFailed<T>> for ServeFault {
    ghost use Rattle.std.specs.Prelude.{◌≡◌};
    ghost use Rattle.command_words.specs.declared.server_words.ServeFault.TheVariants.{OutOfMemory};

    ghost from_gives = { λ _ fault. fault ≡ OutOfMemory };

    fn from(_: AllocFailed<T>) -> Self {
        ServeFault::OutOfMemory
    }
}

/// The words as texts. `Usage` where one isn't UTF-8.
fn texts_of<'a>(alloc: Global, words: &'a [Words]) -> Result<Vec<&'a str>, ServeFault>
    ensures texts { IfOk result (λ texts. map (λ text. text.now) texts.items ≡ words.now) }
    ensures usage { result ≡ Err ServeFault.Usage → All IsUtf8 words.now → ⊥ }
{
    let mut texts = Vec::new(alloc);
    for word in words {
        let Ok(text) = from_utf8(word.bytes()) else {
            return Err(ServeFault::Usage);
        };
        texts.push(text)?;
    }
    Ok(texts)
}

/// A required option with one number.
fn number_option<'a>(alloc: Global, name: &'a str, numbers: ValueParser<'a>) -> Arg<'a>
    ensures { (most : _) → numbers.entry ≡ numbers_to most → IsNumberOption name.entry.now most result }
{
    Arg::new(alloc, name)
        .long(name)
        .required(true)
        .action(ArgAction::Set)
        .value_parser(numbers)
}

/// The option `--port`.
fn port_option<'a>(alloc: Global) -> Arg<'a>
    ensures { IsNumberOption (codes "port") 65535 result }
{
    number_option(alloc, "port", value_parser!(u16).range(1..))
}

/// The option `--connections`.
fn connections_option<'a>(alloc: Global) -> Arg<'a>
    ensures { IsNumberOption (codes "connections") 1000000 result }
{
    number_option(
        alloc,
        "connections",
        value_parser!(u32).range(1..=1_000_000),
    )
}

/// The command that the words are read by, from the first one on.
fn serve_command<'a>(alloc: Global) -> Result<Command<'a>, AllocError>
    ensures { IfOk result IsServeCommand }
{
    Command::new(alloc, "serve")
        .no_binary_name(true)
        .arg(port_option(alloc))?
        .arg(connections_option(alloc))
}

/// The numbers that a parse gave.
fn numbers_of(matches: &ArgMatches<'_>) -> ServeWords
    requires { GivesBoth matches.now }
    ensures port { IsGiven matches.now (codes "port") 65535 result.port }
    ensures connections { IsGiven matches.now (codes "connections") 1000000 result.connections }
{
    ServeWords {
        port: matches.get_one::<u16>("port").unwrap(),
        connections: matches.get_one::<u32>("connections").unwrap(),
    }
}

/// Why a parse gave nothing.
fn fault_of(error: &Error) -> ServeFault
    ensures { kind_of error.now ≡ ErrorKind.OutOfMemory → result ≡ ServeFault.OutOfMemory }
{
    match error.kind() {
        ErrorKind::OutOfMemory => ServeFault::OutOfMemory,
        _ => ServeFault::Usage,
    }
}

/// Reads the words after `serve`: `--port` and `--connections`, with a number each. `Usage` where a word isn't UTF-8, where
/// clap refuses the words, and where they ask for its help; `OutOfMemory` where memory runs out.
pub fn serve_words(alloc: Global, words: &[Words]) -> Result<ServeWords, ServeFault>
    ensures ranges { IfOk result (λ w. IsServable w) }
    ensures plain { IfSome (plain_words words.now) (λ w. (result ≡ Ok w) ⊎ (result ≡ Err ServeFault.OutOfMemory)) }
    ensures usage { result ≡ Err ServeFault.Usage → plain_words words.now ≡ None }
{
    let texts = texts_of(alloc, words)?;
    match serve_command(alloc)?.try_get_matches_from(texts.as_slice()) {
        Ok(matches) => Ok(numbers_of(&matches)),
        Err(error) => Err(fault_of(&error)),
    }
}
