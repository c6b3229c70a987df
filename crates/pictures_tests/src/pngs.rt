//! Tests of png_text and tile_png: pictures whose bytes were put together by other programs (zlib and binascii of Python), and check values.
use png_text::{CrcTables, write_png};
use std::test::Fail;
use tile_png::png_of_tile;

// An orange pixel. The stream is what zlib makes at level 0.
const ONE_PIXEL: [u8; 72] = [
    0x89, 0x50, 0x4e, 0x47, 0x0d, 0x0a, 0x1a, 0x0a, 0x00, 0x00, 0x00, 0x0d, 0x49, 0x48, 0x44, 0x52,
    0x00, 0x00, 0x00, 0x01, 0x00, 0x00, 0x00, 0x01, 0x08, 0x02, 0x00, 0x00, 0x00, 0x90, 0x77, 0x53,
    0xde, 0x00, 0x00, 0x00, 0x0f, 0x49, 0x44, 0x41, 0x54, 0x78, 0x01, 0x01, 0x04, 0x00, 0xfb, 0xff,
    0x00, 0xff, 0x80, 0x00, 0x04, 0x01, 0x01, 0x80, 0xe3, 0xc2, 0x4a, 0xc3, 0x00, 0x00, 0x00, 0x00,
    0x49, 0x45, 0x4e, 0x44, 0xae, 0x42, 0x60, 0x82,
];

#[test]
fn a_picture_of_one_pixel(rt: HostRuntime) -> Result<(), Fail> {
    let tables = CrcTables::new(rt.alloc())?;
    let png = write_png(rt.alloc(), &tables, 1, 1, &[255, 128, 0])?;
    assert!(rt; png.as_slice() == ONE_PIXEL.as_slice());
    Ok(())
}

// Red, green, blue and a light grey. Each of the two scanlines is a stored block.
const FOUR_PIXELS: [u8; 87] = [
    0x89, 0x50, 0x4e, 0x47, 0x0d, 0x0a, 0x1a, 0x0a, 0x00, 0x00, 0x00, 0x0d, 0x49, 0x48, 0x44, 0x52,
    0x00, 0x00, 0x00, 0x02, 0x00, 0x00, 0x00, 0x02, 0x08, 0x02, 0x00, 0x00, 0x00, 0xfd, 0xd4, 0x9a,
    0x73, 0x00, 0x00, 0x00, 0x1e, 0x49, 0x44, 0x41, 0x54, 0x78, 0x01, 0x00, 0x07, 0x00, 0xf8, 0xff,
    0x00, 0xff, 0x00, 0x00, 0x00, 0xff, 0x00, 0x01, 0x07, 0x00, 0xf8, 0xff, 0x00, 0x00, 0x00, 0xff,
    0xfa, 0xfb, 0xfc, 0x1f, 0xd4, 0x05, 0xef, 0xf2, 0x8f, 0x2c, 0x88, 0x00, 0x00, 0x00, 0x00, 0x49,
    0x45, 0x4e, 0x44, 0xae, 0x42, 0x60, 0x82,
];

#[test]
fn a_picture_of_two_rows(rt: HostRuntime) -> Result<(), Fail> {
    let tables = CrcTables::new(rt.alloc())?;
    let pixels = [255, 0, 0, 0, 255, 0, 0, 0, 255, 250, 251, 252];
    let png = write_png(rt.alloc(), &tables, 2, 2, &pixels)?;
    assert!(rt; png.as_slice() == FOUR_PIXELS.as_slice());
    Ok(())
}

// The check value of this CRC in the catalogue of parametrised CRC algorithms (CRC-32/ISO-HDLC), and the last four bytes of each
// PNG file.
#[test]
fn check_values_of_the_crc(rt: HostRuntime) -> Result<(), Fail> {
    let tables = CrcTables::new(rt.alloc())?;
    assert_eq!(rt; tables.crc(b"123456789"), 0xcbf4_3926);
    assert_eq!(rt; tables.crc(b"IEND"), 0xae42_6082);
    Ok(())
}

#[test]
fn a_tile_is_spelt_as_the_picture_of_its_pixels(rt: HostRuntime) -> Result<(), Fail> {
    let tables = CrcTables::new(rt.alloc())?;
    let made = png_of_tile(rt.alloc(), &tables, b"P6\n1 1\n255\n\xff\x80\x00")?;
    assert!(rt; matches!(&made, Some(png) if png.as_slice() == ONE_PIXEL.as_slice()));
    Ok(())
}

// A byte is missing, one is too many, and the sizes aren't those of a picture.
#[test]
fn a_text_that_is_no_pixmap_has_no_spelling(rt: HostRuntime) -> Result<(), Fail> {
    let tables = CrcTables::new(rt.alloc())?;
    assert!(rt; png_of_tile(rt.alloc(), &tables, b"P6\n1 1\n255\n\xff\x80")?.is_none());
    assert!(rt; png_of_tile(rt.alloc(), &tables, b"P6\n1 1\n255\n\xff\x80\x00\x00")?.is_none());
    assert!(rt; png_of_tile(rt.alloc(), &tables, b"P6\n0 1\n255\n")?.is_none());
    assert!(rt; png_of_tile(rt.alloc(), &tables, b"P6\n01 1\n255\n\xff\x80\x00")?.is_none());
    assert!(rt; png_of_tile(rt.alloc(), &tables, b"P6")?.is_none());
    Ok(())
}
