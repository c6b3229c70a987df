//! Tests of record_text.
use matrix_geometry::{Box9, Filter, Theme};
use metatile_plan::MetaKey;
use record_text::{Record, decode, decode_old, encode};
use truncation_list::Cover;

const KEY: MetaKey = MetaKey {
    theme: Theme {
        layer: 258,
        style: 3,
        dims: [4, 5, 6, 7],
    },
    grid: 8,
    z: 9,
    row: 10,
    col: 11,
};

/// A cover with values of some dimensions.
pub const ANY: Cover = Cover {
    layer: 1,
    grid: 2,
    z_start: 3,
    z_stop: 4,
    bounds: None,
    filter: Filter {
        style: None,
        dims: [None, Some(0), None, Some(258)],
    },
};

const BOXED: Cover = Cover {
    layer: 1,
    grid: 2,
    z_start: 3,
    z_stop: 4,
    bounds: Some(Box9 {
        min_x: -2,
        min_y: -1,
        max_x: 0,
        max_y: 1,
    }),
    filter: Filter {
        style: Some(0),
        dims: [None; 4],
    },
};

const NO_FILTER: [u8; 9] = [0; 9];

/// A body that begins with these bytes, has these as a cut's style and values, and is else 0.
pub fn body_of(front: &[u8], filter: [u8; 9]) -> [u8; 63] {
    let mut body = [0; 63];
    body[47..56].copy_from_slice(&filter);
    for (place, byte) in body.iter_mut().zip(front) {
        *place = *byte;
    }
    body
}

/// Whether a body that begins with these bytes, and has these as a cut's style and values, is read as this record.
fn is_read(front: &[u8], filter: [u8; 9], entry: &Record) -> bool {
    decode(&body_of(front, filter)) == Some(*entry)
}

fn reads_an_opening() -> bool {
    is_read(
        &[1, 0, 0, 0, 1, 0, 0, 0, 0, 0, 0, 1, 2],
        NO_FILTER,
        &Record::Opened(1, 258),
    )
}

fn reads_what_is_stored() -> bool {
    is_read(
        &[
            2, 0, 0, 0, 0, 0, 0, 2, 1, 1, 2, 3, 0, 4, 0, 5, 0, 6, 0, 7, 8, 9, 0, 0, 0, 10, 0, 0, 0,
            11, 0, 0, 0, 0, 0, 0, 0, 0, 0, 0, 12, 0, 0, 0, 13, 0, 0, 0, 0, 0, 0, 1, 14, 0, 0, 0, 0,
            0, 0, 0, 15,
        ],
        NO_FILTER,
        &Record::Stored(513, KEY, 12, 13, 270, 15),
    )
}

fn reads_uses() -> bool {
    is_read(
        &[
            5, 0, 0, 0, 0, 0, 0, 2, 1, 1, 2, 3, 0, 4, 0, 5, 0, 6, 0, 7, 8, 9, 0, 0, 0, 10, 0, 0, 0,
            11, 0, 0, 0, 0, 0, 0, 0, 0, 0, 1, 3,
        ],
        NO_FILTER,
        &Record::Uses(513, KEY, 259),
    )
}

const DROPPED: [u8; 30] = [
    3, 0, 0, 0, 0, 0, 0, 2, 1, 1, 2, 3, 0, 4, 0, 5, 0, 6, 0, 7, 8, 9, 0, 0, 0, 10, 0, 0, 0, 11,
];

fn reads_what_is_dropped() -> bool {
    is_read(&DROPPED, NO_FILTER, &Record::Dropped(513, KEY))
}

fn writes_what_is_dropped() -> bool {
    encode(&Record::Dropped(513, KEY)) == body_of(&DROPPED, NO_FILTER)
}

fn reads_a_cut() -> bool {
    is_read(
        &[4, 0, 0, 0, 0, 0, 0, 2, 1, 0, 1, 2, 3, 4],
        [0, 0, 0, 0, 1, 0, 0, 1, 3],
        &Record::Cut(513, ANY),
    )
}

fn reads_a_cut_with_a_box() -> bool {
    is_read(
        &[
            4, 0, 0, 0, 0, 0, 0, 2, 1, 0, 1, 2, 3, 4, 1, 255, 255, 255, 255, 255, 255, 255, 254,
            255, 255, 255, 255, 255, 255, 255, 255, 0, 0, 0, 0, 0, 0, 0, 0, 0, 0, 0, 0, 0, 0, 0, 1,
        ],
        [1, 0, 0, 0, 0, 0, 0, 0, 0],
        &Record::Cut(513, BOXED),
    )
}

#[test]
fn a_record_has_its_bytes(rt: HostRuntime) {
    assert!(rt; reads_an_opening());
    assert!(rt; reads_what_is_stored());
    assert!(rt; reads_uses());
    assert!(rt; reads_what_is_dropped());
    assert!(rt; writes_what_is_dropped());
    assert!(rt; reads_a_cut());
    assert!(rt; reads_a_cut_with_a_box());
}

/// Whether a body that begins with these bytes, and has this byte at a place, is none of a record.
fn has_no_record(front: &[u8], place: usize, byte: u8) -> bool {
    let mut body = body_of(front, NO_FILTER);
    if place < 63 {
        body[place] = byte;
    }
    decode(&body).is_none()
}

// An unknown kind, a byte after the fields, and a cut whose byte for the box is 2, or whose coordinate stands without a box.
#[test]
fn a_body_that_is_no_spelling_has_no_record(rt: HostRuntime) {
    assert!(rt; has_no_record(&[], 0, 0));
    assert!(rt; has_no_record(&[6], 0, 6));
    assert!(rt; has_no_record(&[1, 0, 0, 0, 1, 0, 0, 0, 0, 0, 0, 1, 2], 62, 1));
    assert!(rt; has_no_record(&[4, 0, 0, 0, 0, 0, 0, 0, 1], 14, 2));
    assert!(rt; has_no_record(&[4, 0, 0, 0, 0, 0, 0, 0, 1], 46, 1));
}

/// The body of what is stored, in version 1.
fn old_body() -> [u8; 63] {
    body_of(
        &[
            2, 0, 0, 0, 0, 0, 0, 2, 1, 1, 2, 3, 0, 4, 0, 5, 0, 6, 0, 7, 8, 9, 0, 0, 0, 10, 0, 0, 0,
            11, 0, 0, 0, 0, 0, 0, 0, 0, 0, 0, 12, 0, 0, 0, 13,
        ],
        NO_FILTER,
    )
}

fn reads_old(body: &[u8; 63], entry: &Record) -> bool {
    decode_old(body) == Some(*entry)
}

/// Whether the body with this byte at a place is none of a record of version 1.
fn has_no_old(mut body: [u8; 63], place: usize, byte: u8) -> bool {
    if place < 63 {
        body[place] = byte;
    }
    decode_old(&body).is_none()
}

// What is stored in version 1 has 45 bytes, and no moment and no uses; with a moment or uses, and for uses alone, there is none.
#[test]
fn a_body_of_version_1_has_neither_moments_nor_uses(rt: HostRuntime) {
    assert!(rt; reads_old(&old_body(), &Record::Stored(513, KEY, 12, 13, 0, 0)));
    assert!(rt; has_no_old(old_body(), 52, 1));
    assert!(rt; has_no_old(old_body(), 60, 1));
    assert!(rt; has_no_old(old_body(), 0, 5));
}
