//! Tests of renderer_link: what a render comes to, by what the renderer does.
use crate::stand::{Behind, listen, serve};
use catalog::Catalogue;
use fixtures::FIRST;
use http_answer::AnswerFault;
use http_source::RendererConfig;
use raster_field::{Raster, is_meta, window_at};
use renderer_link::{Renderer, RendererFault};
use std::alloc::Global;
use std::io::{Eprint, ErrorKind};
use std::net::{Net, TcpListener, TcpStream};
use std::sync::Wait;
use std::test::Fail;
use std::thread;
use std::thread::Threads;
use std::time::Clock;

/// A renderer at this port, which is given a second.
fn renderer_at<R: Net>(rt: &R, alloc: Global, port: u16) -> Result<Renderer, Fail> {
    let catalogue = Catalogue::demo(alloc)?;
    let text = format!(in alloc;
        "{{\"url\":\"http://127.0.0.1:{port}/map?{{layer}}&{{style}}&{{grid}}&{{matrix}}&{{minx}},{{miny}},{{maxx}},{{maxy}}&{{width}}x{{height}}&{{number}}\",\"answerSeconds\":1}}"
    )?;
    let Ok(config) = RendererConfig::read(alloc, &catalogue, text.as_bytes()) else {
        return Err("refused")?;
    };
    match Renderer::new(rt, alloc, config) {
        Ok(renderer) => Ok(renderer),
        Err(_) => Err("unknown")?,
    }
}

/// Renders the one metatile at zoom 0 of the built-in catalogue, which has 2 by 2 pixels, under the number 7. Its pixels come into `into`.
fn render<R: Net + Clock + Wait + Eprint>(
    rt: &R,
    alloc: Global,
    port: u16,
    into: &mut Raster,
) -> Result<Result<(), RendererFault>, Fail> {
    let catalogue = Catalogue::demo(alloc)?;
    if !is_meta(&catalogue, &FIRST) {
        return Err("no metatile")?;
    }
    let window = window_at(&catalogue, &FIRST);
    let renderer = renderer_at(rt, alloc, port)?;
    Ok(renderer.ask(rt, alloc, &catalogue, 7, &FIRST, &window, into))
}

/// A black raster of the metatile's size.
fn black(alloc: Global) -> Result<Raster, Fail> {
    let catalogue = Catalogue::demo(alloc)?;
    if !is_meta(&catalogue, &FIRST) {
        return Err("no metatile")?;
    }
    Ok(Raster::new(alloc, &window_at(&catalogue, &FIRST))?)
}

/// What a renderer does with a request, and what the render comes to.
struct Case {
    answer: &'static [u8],
    behind: Behind,
    comes_to: Result<(), RendererFault>,
}

const PIXMAP: &[u8] = b"HTTP/1.1 200 OK\r\nContent-Length: 23\r\n\r\nP6\n2 2\n255\nabcdefghijkl";

/// The same in two chunks.
const CHUNKED: &[u8] =
    b"HTTP/1.1 200 OK\r\nTransfer-Encoding: chunked\r\n\r\n14\r\nP6\n2 2\n255\nabcdefghi\r\n3\r\njkl\r\n0\r\n\r\n";

const CASES: &[Case] = &[
    Case {
        answer: PIXMAP,
        behind: Behind::Holds,
        comes_to: Ok(()),
    },
    Case {
        answer: CHUNKED,
        behind: Behind::Holds,
        comes_to: Ok(()),
    },
    // The body ends with the connection.
    Case {
        answer: b"HTTP/1.0 200 OK\r\n\r\nP6\n2 2\n255\nabcdefghijkl",
        behind: Behind::Closes,
        comes_to: Ok(()),
    },
    // It stops in the middle.
    Case {
        answer: b"HTTP/1.1 200 OK\r\nContent-Length: 23\r\n\r\nP6\n2 2\n255\nabcdef",
        behind: Behind::Holds,
        comes_to: Err(RendererFault::Late),
    },
    // It says nothing at all.
    Case {
        answer: b"",
        behind: Behind::Holds,
        comes_to: Err(RendererFault::Late),
    },
    // It closes in the middle.
    Case {
        answer: b"HTTP/1.1 200 OK\r\nContent-Length: 23\r\n\r\nP6\n2 2\n255\nabcdef",
        behind: Behind::Closes,
        comes_to: Err(RendererFault::Answer(AnswerFault::CutOff)),
    },
    Case {
        answer: b"HTTP/1.1 500 Internal Server Error\r\nContent-Length: 0\r\n\r\n",
        behind: Behind::Closes,
        comes_to: Err(RendererFault::Answer(AnswerFault::Status(500))),
    },
    // MapServer answers its errors so.
    Case {
        answer: b"HTTP/1.1 200 OK\r\nContent-Length: 19\r\n\r\n<ServiceException/>",
        behind: Behind::Closes,
        comes_to: Err(RendererFault::NoPixmap),
    },
    // A picture of another size.
    Case {
        answer: b"HTTP/1.1 200 OK\r\nContent-Length: 17\r\n\r\nP6\n2 1\n255\nabcdef",
        behind: Behind::Closes,
        comes_to: Err(RendererFault::NoPixmap),
    },
];

/// What is asked of a renderer at this port for the metatile, which is the whole of a world of 16 by 16 units, up to the fields.
fn is_asked(alloc: Global, request: &[u8], port: u16) -> Result<bool, Fail> {
    let asked = format!(in alloc;
        "GET /map?demo&grey&tiny&0&0.000000000000,0.000000000000,16.000000000000,16.000000000000&2x2&7 HTTP/1.1\r\nHost: 127.0.0.1:{port}\r\n"
    )?;
    Ok(request.starts_with(asked.as_bytes()))
}

/// Whether a render comes to that, and asks for the metatile.
fn comes_to<R>(rt: R, alloc: Global, case: &'static Case) -> Result<bool, Fail>
where
    R: Threads
        + Wait
        + Net<Listener = TcpListener, Stream = TcpStream>
        + Clock
        + Eprint
        + Copy
        + Drop
        + Send
        + 'static,
{
    let listener = listen(&rt)?;
    let port = listener.local_addr()?.port();
    let stand = thread::spawn(
        &rt,
        move || serve(alloc, &listener, case.answer, case.behind),
    )?;
    let mut raster = black(alloc)?;
    let came = render(&rt, alloc, port, &mut raster)?;
    let request = stand.join(&rt)?;
    let painted = shows(&raster);
    Ok(
        came == case.comes_to
            && painted == came.is_ok()
            && is_asked(alloc, request.as_slice(), port)?,
    )
}

/// Whether a raster of 2 by 2 pixels shows those of the pixmap.
fn shows(raster: &Raster) -> bool {
    if raster.width() != 2 || raster.height() != 2 {
        return false;
    }
    raster.part(0, 0, 2) == b"abcdef".as_slice() && raster.part(0, 1, 2) == b"ghijkl".as_slice()
}

#[test]
fn each_answer_comes_to_its_end(rt: HostRuntime) -> Result<(), Fail> {
    for case in CASES {
        assert!(rt; comes_to(rt, rt.alloc(), case)?);
    }
    Ok(())
}

#[test]
fn nobody_answers_at_a_closed_port(rt: HostRuntime) -> Result<(), Fail> {
    let port = listen(&rt)?.local_addr()?.port();
    let mut raster = black(rt.alloc())?;
    let came = render(&rt, rt.alloc(), port, &mut raster)?;
    assert!(rt; came == Err(RendererFault::Connect(ErrorKind::ConnectionRefused)));
    Ok(())
}
