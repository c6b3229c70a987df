//! The words of a link.
ghost use Rattle.std.specs.Prelude.{◌≡◌};
ghost use Rattle.link_words.specs.Words.{link_word, port_in, two_words};

use exact_ratio::Words;
use wmts_kvp::{below, is_number};

/// What the words of a link ask for, with the port of the connection.
#[derive(Clone, Copy, PartialEq, Eq)]
pub enum LinkWord {
    /// The posts of the outbox go over the link.
    Lead(u16),
    /// The changes that come over the link are made.
    Follow(u16),
}

/// The port that digits without a leading zero spell, 1 to 65,535; none where a text is no such number.
fn port_in(text: &[u8]) -> Option<u16>
    ensures { result ≡ port_in text.now }
{
    if !is_number(text) {
        return None;
    }
    if text[0] == b'0' {
        return None;
    }
    match below(65_536, text) {
        Some(port) => Some(port as u16),
        None => None,
    }
}

/// What two words ask for.
fn two_words(word: &[u8], port: &[u8]) -> Option<LinkWord>
    ensures { result ≡ two_words word.now port.now }
{
    match port_in(port) {
        None => None,
        Some(port) => {
            if word == b"lead".as_slice() {
                Some(LinkWord::Lead(port))
            } else {
                if word == b"follow".as_slice() {
                    Some(LinkWord::Follow(port))
                } else {
                    None
                }
            }
        }
    }
}

/// What words ask for; `None` exactly where they are neither `lead` nor `follow` and a port.
pub fn link_word(words: &[Words]) -> Option<LinkWord>
    ensures { result ≡ link_word words.now }
{
    match words {
        [word, port] => two_words(word.bytes(), port.bytes()),
        _ => None,
    }
}
