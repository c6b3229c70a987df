//! How a record is spelled.
ghost use Rattle.std.specs.List.{AllByRecursion, flat_map};
ghost use Rattle.std.specs.Prelude.{◌≡◌, ◌+◌, ◌≤◌, ◌<◌, ◌^◌, ◌++◌, length, IfSome, None, Some};
ghost use Rattle.byteorder.specs.Endian.{big_bytes};
ghost use Rattle.record_text.specs.Fits.{Fits, FitsBox, FitsCover, FitsFilter, FitsMetatile, FitsTheme};
ghost use Rattle.record_text.specs.Spelling.{blob, bounds, coordinate, counted, cover, filter, metatile, position, spelling, theme, wanted};

use crate::draft::Draft;
use crate::entries::Record;
use matrix_geometry::{Box9, Filter, Theme};
use metatile_plan::MetaKey;
use truncation_list::Cover;

fn with_values(draft: Draft, values: [u32; 4]) -> Draft
    requires room { length draft + 8 ≤ 63 }
    requires fits { AllByRecursion (λ v. v < 2 ^ 16) values }
    ensures bytes { result ≡ draft ++ flat_map (big_bytes 2) values }
    ensures size { length result ≡ length draft + 8 }
{
    let [first, second, third, fourth] = values;
    draft
        .number(u64::from(first), 2)
        .number(u64::from(second), 2)
        .number(u64::from(third), 2)
        .number(u64::from(fourth), 2)
}

fn with_theme(draft: Draft, part: &Theme) -> Draft
    requires room { length draft + 11 ≤ 63 }
    requires fits { FitsTheme part.now }
    ensures bytes { result ≡ draft ++ theme part.now }
    ensures size { length result ≡ length draft + 11 }
{
    let draft = draft
        .number(u64::from(part.layer), 2)
        .number(u64::from(part.style), 1);
    with_values(draft, part.dims)
}

/// The place of a metatile in its layer, and three zeros.
fn with_position(draft: Draft, key: &MetaKey) -> Draft
    requires room { length draft + 13 ≤ 63 }
    requires fits { FitsMetatile key.now }
    ensures bytes { result ≡ draft ++ position key.now }
    ensures size { length result ≡ length draft + 13 }
{
    draft
        .number(u64::from(key.grid), 1)
        .number(u64::from(key.z), 1)
        .number(u64::from(key.row), 4)
        .number(u64::from(key.col), 4)
        .number(0, 3)
}

fn with_metatile(draft: Draft, key: &MetaKey) -> Draft
    requires room { length draft + 24 ≤ 63 }
    requires fits { FitsMetatile key.now }
    ensures bytes { result ≡ draft ++ metatile key.now }
    ensures size { length result ≡ length draft + 24 }
{
    with_position(with_theme(draft, &key.theme), key)
}

fn with_blob(draft: Draft, place: u64, size: u32) -> Draft
    requires room { length draft + 12 ≤ 63 }
    ensures bytes { result ≡ draft ++ blob place size }
    ensures size { length result ≡ length draft + 12 }
{
    draft.number(place, 8).number(u64::from(size), 4)
}

fn with_counted(draft: Draft, moment: u64, uses: u64) -> Draft
    requires room { length draft + 16 ≤ 63 }
    ensures bytes { result ≡ draft ++ counted moment uses }
    ensures size { length result ≡ length draft + 16 }
{
    draft.number(moment, 8).number(uses, 8)
}

/// What stands behind a stored metatile.
fn with_kept(draft: Draft, place: u64, size: u32, moment: u64, uses: u64) -> Draft
    requires room { length draft + 28 ≤ 63 }
    ensures bytes { result ≡ draft ++ (blob place size ++ counted moment uses) }
    ensures size { length result ≡ length draft + 28 }
{
    with_counted(with_blob(draft, place, size), moment, uses)
}

/// A coordinate as two's complement.
fn with_coordinate(draft: Draft, place: i64) -> Draft
    requires room { length draft + 8 ≤ 63 }
    ensures bytes { result ≡ draft ++ coordinate place }
    ensures size { length result ≡ length draft + 8 }
{
    draft.number(place.cast_unsigned(), 8)
}

fn with_box(draft: Draft, edges: Box9) -> Draft
    requires room { length draft + 33 ≤ 63 }
    requires fits { FitsBox edges }
    ensures bytes { result ≡ draft ++ bounds (Some edges) }
    ensures size { length result ≡ length draft + 33 }
{
    let lower = with_coordinate(
        with_coordinate(draft.number(1, 1), edges.min_x),
        edges.min_y,
    );
    with_coordinate(with_coordinate(lower, edges.max_x), edges.max_y)
}

/// The flag and the edges are zeros where there is no box.
fn with_zeros(draft: Draft) -> Draft
    requires room { length draft + 33 ≤ 63 }
    ensures bytes { result ≡ draft ++ bounds None }
    ensures size { length result ≡ length draft + 33 }
{
    draft
        .number(0, 1)
        .number(0, 8)
        .number(0, 8)
        .number(0, 8)
        .number(0, 8)
}

fn with_bounds(draft: Draft, edges: Option<Box9>) -> Draft
    requires room { length draft + 33 ≤ 63 }
    requires fits { IfSome edges FitsBox }
    ensures bytes { result ≡ draft ++ bounds edges }
    ensures size { length result ≡ length draft + 33 }
{
    match edges {
        Some(edges) => with_box(draft, edges),
        None => with_zeros(draft),
    }
}

/// 0 for any, and else the number plus 1.
fn wanted_code(number: Option<u32>) -> u32
    requires { wanted number < 2 ^ 16 }
    ensures { result ≡ wanted number }
{
    match number {
        None => 0,
        Some(number) => number + 1,
    }
}

fn with_filter(draft: Draft, admitted: &Filter) -> Draft
    requires room { length draft + 9 ≤ 63 }
    requires fits { FitsFilter admitted.now }
    ensures bytes { result ≡ draft ++ filter admitted.now }
    ensures size { length result ≡ length draft + 9 }
{
    let [first, second, third, fourth] = admitted.dims;
    let values = [
        wanted_code(first),
        wanted_code(second),
        wanted_code(third),
        wanted_code(fourth),
    ];
    with_values(
        draft.number(u64::from(wanted_code(admitted.style)), 1),
        values,
    )
}

fn with_cover(draft: Draft, part: &Cover) -> Draft
    requires room { length draft + 47 ≤ 63 }
    requires fits { FitsCover part.now }
    ensures bytes { result ≡ draft ++ cover part.now }
    ensures size { length result ≡ length draft + 47 }
{
    let draft = draft
        .number(u64::from(part.layer), 2)
        .number(u64::from(part.grid), 1)
        .number(u64::from(part.z_start), 1)
        .number(u64::from(part.z_stop), 1);
    with_filter(with_bounds(draft, part.bounds), &part.filter)
}

/// The one spelling of a record: its kind, its fields big endian one after the other, and zeros.
pub fn encode(entry: &Record) -> [u8; 63]
    requires { Fits entry.now }
    ensures { result ≡ spelling entry.now }
{
    match entry {
        Record::Opened(opening, floor) => Draft::of_kind(1)
            .number(u64::from(*opening), 4)
            .number(*floor, 8)
            .body(),
        Record::Stored(number, key, place, size, moment, uses) => {
            let draft = with_metatile(Draft::of_kind(2).number(*number, 8), key);
            with_kept(draft, *place, *size, *moment, *uses).body()
        }
        Record::Dropped(number, key) => {
            with_metatile(Draft::of_kind(3).number(*number, 8), key).body()
        }
        Record::Cut(number, part) => {
            with_cover(Draft::of_kind(4).number(*number, 8), part).body()
        }
        Record::Uses(number, key, uses) => {
            let draft = with_metatile(Draft::of_kind(5).number(*number, 8), key);
            draft.number(*uses, 8).body()
        }
    }
}
