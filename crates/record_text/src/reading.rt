//! How a record is read from a body, which has to be the one spelling of it.
ghost use Rattle.std.specs.Int.{w64};
ghost use Rattle.std.specs.List.{AllByRecursion};
ghost use Rattle.std.specs.Prelude.{◌≡◌, ◌+◌, ◌≤◌, ◌<◌, ◌^◌, ◌↔◌, length, Some, FitsSigned, IfSome, IsTrue};
ghost use Rattle.record_text.specs.Fits.{Fits, FitsBox, FitsCover, FitsFilter, FitsMetatile};
ghost use Rattle.record_text.specs.Old.{IsOld, old_spelling};
ghost use Rattle.record_text.specs.Reading.{number_at, values_at, metatile_at, coordinate_at, box_at, bounds_at, wanted_of, filter_at, cover_at, entry_of};
ghost use Rattle.record_text.specs.Spelling.{spelling, wanted};
ghost use Rattle.record_text.specs.declared.entries.Record.{Record};

use crate::entries::Record;
use crate::writing::encode;
use byteorder::{BigEndian, ByteOrder};
use matrix_geometry::{Box9, Filter, Theme};
use metatile_plan::MetaKey;
use truncation_list::Cover;

fn one_at(bytes: &[u8], at: usize) -> u32
    requires { at + 1 ≤ length bytes.now }
    ensures value { result ≡ number_at 1 at bytes.now }
    ensures fits { result < 2 ^ 8 }
{
    u32::from(bytes[at])
}

fn two_at(bytes: &[u8], at: usize) -> u32
    requires { at + 2 ≤ length bytes.now }
    ensures value { result ≡ number_at 2 at bytes.now }
    ensures fits { result < 2 ^ 16 }
{
    u32::from(BigEndian::read_u16(&bytes[at..]))
}

fn four_at(bytes: &[u8], at: usize) -> u32
    requires { at + 4 ≤ length bytes.now }
    ensures { result ≡ number_at 4 at bytes.now }
{
    BigEndian::read_u32(&bytes[at..])
}

fn eight_at(bytes: &[u8], at: usize) -> u64
    requires { at + 8 ≤ length bytes.now }
    ensures { result ≡ number_at 8 at bytes.now }
{
    BigEndian::read_u64(&bytes[at..])
}

fn coordinate_at(bytes: &[u8], at: usize) -> i64
    requires { at + 8 ≤ length bytes.now }
    ensures value { result ≡ coordinate_at at bytes.now }
    ensures fits { FitsSigned w64 result }
{
    eight_at(bytes, at).cast_signed()
}

fn values_at(bytes: &[u8], at: usize) -> [u32; 4]
    requires { at + 8 ≤ length bytes.now }
    ensures value { result ≡ values_at at bytes.now }
    ensures fits { AllByRecursion (λ v. v < 2 ^ 16) result }
{
    [
        two_at(bytes, at),
        two_at(bytes, at + 2),
        two_at(bytes, at + 4),
        two_at(bytes, at + 6),
    ]
}

#[tactic(auto, unfolding(crate::specs::Reading::metatile_at))]
fn metatile_at(bytes: &[u8], at: usize) -> MetaKey
    requires { at + 24 ≤ length bytes.now }
    ensures value { result ≡ metatile_at at bytes.now }
    ensures fits { FitsMetatile result }
{
    MetaKey {
        theme: Theme {
            layer: two_at(bytes, at),
            style: one_at(bytes, at + 2),
            dims: values_at(bytes, at + 3),
        },
        grid: one_at(bytes, at + 11),
        z: one_at(bytes, at + 12),
        row: four_at(bytes, at + 13),
        col: four_at(bytes, at + 17),
    }
}

fn box_at(bytes: &[u8], at: usize) -> Box9
    requires { at + 32 ≤ length bytes.now }
    ensures value { result ≡ box_at at bytes.now }
    ensures fits { FitsBox result }
{
    Box9 {
        min_x: coordinate_at(bytes, at),
        min_y: coordinate_at(bytes, at + 8),
        max_x: coordinate_at(bytes, at + 16),
        max_y: coordinate_at(bytes, at + 24),
    }
}

#[tactic(auto, unfolding(crate::specs::Reading::bounds_at))]
fn bounds_at(bytes: &[u8], at: usize) -> Option<Box9>
    requires { at + 33 ≤ length bytes.now }
    ensures value { result ≡ bounds_at at bytes.now }
    ensures fits { IfSome result FitsBox }
{
    if one_at(bytes, at) == 1 {
        Some(box_at(bytes, at + 1))
    } else {
        None
    }
}

fn wanted_of(number: u32) -> Option<u32>
    ensures value { result ≡ wanted_of number }
    ensures back { wanted result ≡ number }
{
    number.checked_sub(1)
}

#[tactic(auto, unfolding(crate::specs::Reading::filter_at))]
fn filter_at(bytes: &[u8], at: usize) -> Filter
    requires { at + 9 ≤ length bytes.now }
    ensures value { result ≡ filter_at at bytes.now }
    ensures fits { FitsFilter result }
{
    let values = values_at(bytes, at + 1);
    Filter {
        style: wanted_of(one_at(bytes, at)),
        dims: [
            wanted_of(values[0]),
            wanted_of(values[1]),
            wanted_of(values[2]),
            wanted_of(values[3]),
        ],
    }
}

#[tactic(auto, unfolding(crate::specs::Reading::cover_at))]
fn cover_at(bytes: &[u8], at: usize) -> Cover
    requires { at + 47 ≤ length bytes.now }
    ensures value { result ≡ cover_at at bytes.now }
    ensures fits { FitsCover result }
{
    Cover {
        layer: two_at(bytes, at),
        grid: one_at(bytes, at + 2),
        z_start: one_at(bytes, at + 3),
        z_stop: one_at(bytes, at + 4),
        bounds: bounds_at(bytes, at + 5),
        filter: filter_at(bytes, at + 38),
    }
}

/// What the fields of a body say, whether or not its record has this spelling; `None` where there is no such kind.
#[tactic(auto, unfolding(crate::specs::Reading::entry_of))]
fn entry_of(body: &[u8; 63]) -> Option<Record>
    ensures value { result ≡ entry_of body.now }
    ensures fits { IfSome result Fits }
{
    match body[0] {
        1 => Some(Record::Opened(four_at(body, 1), eight_at(body, 5))),
        2 => Some(Record::Stored(
            eight_at(body, 1),
            metatile_at(body, 9),
            eight_at(body, 33),
            four_at(body, 41),
            eight_at(body, 45),
            eight_at(body, 53),
        )),
        3 => Some(Record::Dropped(eight_at(body, 1), metatile_at(body, 9))),
        4 => Some(Record::Cut(eight_at(body, 1), cover_at(body, 9))),
        5 => Some(Record::Uses(eight_at(body, 1), metatile_at(body, 9), eight_at(body, 33))),
        _ => None,
    }
}

/// The record that a body of version 2 spells; `None` exactly where the body is no spelling. Each body that is one is the
/// spelling of one record alone, so it is read by the places of the fields and then compared with what that record is
/// spelled as.
pub fn decode(body: &[u8; 63]) -> Option<Record>
    ensures { (entry : Record) → (result ≡ Some entry) ↔ (Fits entry × (spelling entry ≡ body.now)) }
{
    let entry = entry_of(body)?;
    if encode(&entry) == *body {
        Some(entry)
    } else {
        None
    }
}

/// Whether a record has a spelling in version 1 too: it knows neither moments nor uses.
fn is_old(entry: &Record) -> bool
    ensures { IsTrue result ↔ IsOld entry.now }
{
    match entry {
        Record::Stored(_, _, _, _, moment, uses) => *moment == 0 && *uses == 0,
        Record::Uses(_, _, _) => false,
        Record::Opened(_, _) | Record::Dropped(_, _) | Record::Cut(_, _) => true,
    }
}

/// The record that a body of version 1 spells; `None` exactly where the body is no spelling of that version. A metatile that
/// is stored there has the moment 0 and no uses. What is spelled in version 1 is spelled so in version 2 as well.
pub fn decode_old(body: &[u8; 63]) -> Option<Record>
    ensures { (entry : Record) → (result ≡ Some entry) ↔ (Fits entry × IsOld entry × (old_spelling entry ≡ body.now)) }
{
    match decode(body) {
        None => None,
        Some(entry) => { if is_old(&entry) { Some(entry) } else { None } }
    }
}
