//! The host and the port that a URL names.
ghost use Rattle.std.specs.Char.{is_ascii_digit};
ghost use Rattle.std.specs.List.{list_all};
ghost use Rattle.std.specs.Prelude.{◌≡◌, ◌≤◌, ◌<◌, ℕ, length, option_map};
ghost use Rattle.std.specs.Str.Parse.{digits_value};
ghost use Rattle.window_request.specs.Addresses.{is_host_byte, is_host, IsNumberOf, port_of, port_behind, address_of, named};

use crate::piece::len_until;

/// The port of a URL of the scheme http that names none (RFC 9110, section 4.2.1).
const DEFAULT_PORT: u16 = 80;

/// A host and a port.
#[derive(Clone, Copy)]
pub struct HostPort<'a> {
    pub host: &'a [u8],
    pub port: u16,
}

fn is_host_byte(byte: u8) -> bool
    ensures { result ≡ is_host_byte byte }
{
    byte.is_ascii_alphanumeric() || byte == b'.' || byte == b'-' || byte == b'_'
}

/// Whether a text may be the name of a host.
fn is_host(text: &[u8]) -> bool
    ensures { result ≡ is_host text.now }
{
    if text.is_empty() {
        return false;
    }
    for byte in text {
        if !is_host_byte(*byte) {
            return false;
        }
    }
    true
}

/// The number that 1 to 5 digits write; `None` for any other text.
fn number_of(text: &[u8]) -> Option<u32>
    ensures { IsNumberOf text.now result }
{
    if text.is_empty() || text.len() > 5 {
        return None;
    }
    let mut number = 0;
    for digit in text {
        if !digit.is_ascii_digit() {
            return None;
        }
        number = number * 10 + u32::from(*digit - b'0');
    }
    Some(number)
}

/// The port that digits write, from 1 to 65535; `None` for any other text.
#[tactic(auto, using(crate::proofs::Ports::no_number, crate::proofs::Ports::number_is))]
fn port_of(text: &[u8]) -> Option<u16>
    ensures { result ≡ port_of text.now }
{
    let number = number_of(text)?;
    if number == 0 || number > 65535 {
        return None;
    }
    Some(number as u16)
}

/// The port that follows a host.
fn port_behind(text: &[u8]) -> Option<u16>
    ensures { result ≡ port_behind text.now }
{
    match text {
        [] => Some(DEFAULT_PORT),
        [_, digits @ ..] => port_of(digits),
    }
}

/// The host and the port of `HOST` or `HOST:PORT`; `None` for any other text (RFC 3986, section 3.2, without user information and
/// addresses in brackets).
#[tactic(auto, unfolding(crate::specs::Addresses::address_of))]
pub fn address_of(authority: &[u8]) -> Option<HostPort>
    ensures { option_map named result ≡ address_of authority.now }
{
    let (host, behind) = authority.split_at(len_until(authority, b':'));
    if !is_host(host) {
        return None;
    }
    let port = port_behind(behind)?;
    Some(HostPort { host, port })
}
