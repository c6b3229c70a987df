//! Tests of window_request: templates as operators write them, each fault, and decimal texts that were worked out by hand.
use std::alloc::{AllocError, Global};
use std::test::Fail;
use window_request::{DimensionValue, Template, TemplateFault, Values, decimal_text};

const GET_MAP: &[u8] =
    b"http://localhost:8080/cgi-bin/mapserv?map=/srv/sea.map&SERVICE=WMS&VERSION=1.1.1&REQUEST=GetMap&LAYERS={layer}&STYLES={style}&SRS={grid}&BBOX={minx},{miny},{maxx},{maxy}&WIDTH={width}&HEIGHT={height}&FORMAT=image/x-portable-pixmap&TIME={dim:time}&ELEVATION={dim:elevation}&STATE={number}-{matrix}";

const TARGET: &[u8] =
    b"/cgi-bin/mapserv?map=/srv/sea.map&SERVICE=WMS&VERSION=1.1.1&REQUEST=GetMap&LAYERS=sea%20%26%20land%2F%C3%BC&STYLES=plain&SRS=EPSG%3A3857&BBOX=-180.000000000000,-90.5,0,90&WIDTH=512&HEIGHT=256&FORMAT=image/x-portable-pixmap&TIME=2026-12-01T08%3A00%3A00Z&ELEVATION=&STATE=7-0";

const REQUEST: &[u8] =
    b"GET /sea%20%26%20land%2F%C3%BC HTTP/1.1\r\nHost: maps_1.example\r\nAccept: image/x-portable-pixmap\r\nConnection: close\r\nUser-Agent: tile_server/1.2\r\n\r\n";

const TIME: &[DimensionValue] = &[DimensionValue {
    name: b"time",
    value: b"2026-12-01T08:00:00Z",
}];

fn values() -> Values<'static> {
    Values {
        layer: b"sea & land/\xc3\xbc",
        style: b"plain",
        grid: b"EPSG:3857",
        matrix: b"0",
        min_x: b"-180.000000000000",
        min_y: b"-90.5",
        max_x: b"0",
        max_y: b"90",
        width: b"512",
        height: b"256",
        number: b"7",
        dimensions: TIME,
    }
}

#[test]
fn a_template_is_filled(rt: HostRuntime) -> Result<(), Fail> {
    let alloc = rt.alloc();
    let template = Template::read(alloc, GET_MAP)?;
    assert!(rt; template.host.as_slice() == b"localhost".as_slice());
    assert!(rt; template.port == 8080);
    let target = template.target(alloc, &values())?;
    assert!(rt; target.as_slice() == TARGET);
    Ok(())
}

#[test]
fn a_request_has_its_fields(rt: HostRuntime) -> Result<(), Fail> {
    let alloc = rt.alloc();
    let template = Template::read(alloc, b"http://maps_1.example/{layer}")?;
    assert!(rt; template.port == 80);
    let request = template.request(alloc, &values(), b"1.2")?;
    assert!(rt; request.as_slice() == REQUEST);
    Ok(())
}

/// Whether a text is refused for this reason.
fn refuses(alloc: Global, text: &[u8], expected: TemplateFault) -> bool {
    match Template::read(alloc, text) {
        Ok(_) => false,
        Err(fault) => fault == expected,
    }
}

#[test]
fn a_wrong_address_is_told(rt: HostRuntime) {
    let alloc = rt.alloc();
    assert!(rt; refuses(alloc, b"https://h/", TemplateFault::Scheme));
    for text in [
        b"http://:80/".as_slice(),
        b"http://h:/",
        b"http://h:0/",
        b"http://h:65536/",
        b"http://h:1:2/",
        b"http://u@h/",
    ] {
        assert!(rt; refuses(alloc, text, TemplateFault::Authority));
    }
    assert!(rt; refuses(alloc, b"http://h:65535", TemplateFault::NoPath));
}

#[test]
fn a_wrong_byte_is_told_with_its_place(rt: HostRuntime) {
    let alloc = rt.alloc();
    for text in [
        b"http://h/{layer} ".as_slice(),
        b"http://h/1234567}",
        b"http://h/{style}#",
        b"http://h/1234567\n",
        b"http://h/1234567\x7f",
        b"http://h/1234567\xc3\xbc",
    ] {
        assert!(rt; refuses(alloc, text, TemplateFault::Byte(16)));
    }
}

#[test]
fn a_wrong_name_is_told_with_its_place(rt: HostRuntime) {
    let alloc = rt.alloc();
    assert!(rt; refuses(alloc, b"http://h/{layer", TemplateFault::OpenBrace(9)));
    for text in [
        b"http://h/{Layer}".as_slice(),
        b"http://h/{}",
        b"http://h/{dim:}",
        b"http://h/{bbox}",
        b"http://h/{{layer}}",
    ] {
        assert!(rt; refuses(alloc, text, TemplateFault::UnknownName(9)));
    }
}

/// Whether a fraction of moderate size has this text.
fn writes(alloc: Global, n: i128, d: u128, expected: &[u8]) -> Result<bool, AllocError> {
    if d == 0 || n.unsigned_abs() > 100_000_000_000_000_000 || d > 10_000_000_000_000 {
        return Ok(false);
    }
    let text = decimal_text(alloc, n, d)?;
    Ok(text.as_slice() == expected)
}

#[test]
fn a_fraction_is_rounded_to_the_nearest(rt: HostRuntime) -> Result<(), Fail> {
    let alloc = rt.alloc();
    assert!(rt; writes(alloc, -180, 1, b"-180.000000000000")?);
    assert!(rt; writes(alloc, 1, 3, b"0.333333333333")?);
    assert!(rt; writes(alloc, -2, 3, b"-0.666666666667")?);
    assert!(rt;
        writes(
            alloc,
            20_037_508_342_789_244,
            1_000_000_000,
            b"20037508.342789244000"
        )?
    );
    assert!(rt; writes(alloc, 1, 2_000_000_000_000, b"0.000000000001")?);
    assert!(rt; writes(alloc, -1, 2_000_000_000_000, b"-0.000000000001")?);
    assert!(rt;
        writes(
            alloc,
            9_999_999_999_999,
            10_000_000_000_000,
            b"1.000000000000"
        )?
    );
    Ok(())
}
