//! Tests of ppm_reading: pixmaps as other programs write them, and texts that are none.
use ppm_reading::pixels_at;

/// A pixmap of two by one pixels: the head, and a red and a blue pixel.
const RED_AND_BLUE: &[u8] = b"P6\n2 1\n255\n\xff\0\0\0\0\xff";

#[test]
fn a_pixmap_is_read(rt: HostRuntime) {
    assert!(rt; pixels_at(RED_AND_BLUE, 2, 1) == Some(11));
    assert!(rt; pixels_at(b"P6\n512 0\n255\n", 512, 0) == Some(13));
}

/// A head as GIMP writes it, and heads with all that ppm(5) allows.
#[test]
fn comments_and_whitespace_are_passed_over(rt: HostRuntime) {
    assert!(rt;
        pixels_at(
            b"P6\n# Created by GIMP version 2.10.34 PNM plug-in\n1 1\n255\n\x01\x02\x03",
            1,
            1
        ) == Some(57)
    );
    assert!(rt; pixels_at(b"P6 1 1 255 \x01\x02\x03", 1, 1) == Some(11));
    assert!(rt;
        pixels_at(
            b"P6\t#one\r #two\n\n01 # w\n1\r\n#\n255\n\x01\x02\x03",
            1,
            1
        ) == Some(31)
    );
    assert!(rt; pixels_at(b"P6 1 1 255\n#\n\x20", 1, 1) == Some(11));
}

#[test]
fn a_cut_pixmap_is_none(rt: HostRuntime) {
    for len in 0..RED_AND_BLUE.len() {
        assert!(rt; pixels_at(&RED_AND_BLUE[..len], 2, 1) == None);
    }
    assert!(rt; pixels_at(b"P6\n2 1\n255\n\xff\0\0\0\0\xff\n", 2, 1) == None);
}

#[test]
fn another_size_is_none(rt: HostRuntime) {
    assert!(rt; pixels_at(RED_AND_BLUE, 1, 2) == None);
    assert!(rt; pixels_at(RED_AND_BLUE, 1, 1) == None);
    assert!(rt; pixels_at(b"P6\n2 1\n65535\n\0\xff\0\0\0\0\0\0\0\0\0\xff", 2, 1) == None);
}

#[test]
fn another_form_is_none(rt: HostRuntime) {
    assert!(rt; pixels_at(b"P5\n1 1\n255\n\x01\x02\x03", 1, 1) == None);
    assert!(rt; pixels_at(b"P3\n1 1\n255\n1 2 3", 1, 1) == None);
    assert!(rt; pixels_at(b"P6#\n1 1\n255\n\x01\x02\x03", 1, 1) == None);
    assert!(rt; pixels_at(b"P6\n1#\n1\n255\n\x01\x02\x03", 1, 1) == None);
    assert!(rt; pixels_at(b"P6\n1 1\n255#\x01\x02\x03", 1, 1) == None);
    assert!(rt; pixels_at(b"P6\n1 1\n0000000255\n\x01\x02\x03", 1, 1) == None);
    assert!(rt; pixels_at(b"P6\n1 -1\n255\n\x01\x02\x03", 1, 1) == None);
    assert!(rt; pixels_at(b"P6\n1 1\n255\n", 4294967295, 4294967295) == None);
}
