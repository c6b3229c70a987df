//! Tests of http_source: a text with all members, one with few, and each fault.
ghost use Rattle.catalog.specs.Valid.{IsValid};

use catalog::Catalogue;
use http_source::{RendererConfig, RendererFault, RendererField};
use std::alloc::Global;
use std::test::Fail;
use window_request::TemplateFault;

const WHOLE: &[u8] =
    b"{\"url\":\"http://maps.example/a?{layer}\",\"layers\":[{\"layer\":\"demo\",\"url\":\"http://other.example:81/b\"}],\"connectSeconds\":60,\"answerSeconds\":600,\"renders\":64}";

#[test]
fn a_whole_text_is_read(rt: HostRuntime) -> Result<(), Fail> {
    let alloc = rt.alloc();
    let catalogue = Catalogue::demo(alloc)?;
    let Ok(config) = RendererConfig::read(alloc, &catalogue, WHOLE) else {
        return Err("refused")?;
    };
    assert!(rt; config.template.host.as_slice() == b"maps.example".as_slice());
    assert!(rt; config.own_place(0) == Some(0));
    assert!(rt; config.template_for(0).port == 81);
    assert!(rt; config.connect_seconds == 60);
    assert!(rt; config.answer_seconds == 600);
    assert!(rt; config.renders == 64);
    Ok(())
}

#[test]
fn what_is_absent_has_a_default(rt: HostRuntime) -> Result<(), Fail> {
    let alloc = rt.alloc();
    let catalogue = Catalogue::demo(alloc)?;
    let Ok(config) = RendererConfig::read(alloc, &catalogue, b"{\"url\":\"http://h/\"}") else {
        return Err("refused")?;
    };
    assert!(rt; config.own_place(0) == None);
    assert!(rt; config.connect_seconds == 5);
    assert!(rt; config.answer_seconds == 60);
    assert!(rt; config.renders == 8);
    Ok(())
}

/// Texts that are refused, each with its fault.
const REFUSED: &[(&[u8], RendererFault)] = &[
    (b"[]", RendererFault::NotJson),
    (b"{}", RendererFault::Missing(RendererField::Url, 0)),
    (b"{\"url\":1}", RendererFault::Bad(RendererField::Url, 0)),
    (
        b"{\"url\":\"http://h/\",\"layers\":{}}",
        RendererFault::Bad(RendererField::Layers, 0),
    ),
    (
        b"{\"url\":\"http://h/\",\"layers\":[{\"url\":\"http://h/\"}]}",
        RendererFault::Missing(RendererField::Layer, 0),
    ),
    (
        b"{\"url\":\"http://h/\",\"layers\":[{\"layer\":\"sea\",\"url\":\"http://h/\"}]}",
        RendererFault::Bad(RendererField::Layer, 0),
    ),
    (
        b"{\"url\":\"http://h/\",\"layers\":[{\"layer\":\"demo\"}]}",
        RendererFault::Missing(RendererField::LayerUrl, 0),
    ),
    (
        b"{\"url\":\"http://h/\",\"layers\":[{\"layer\":\"demo\",\"url\":\"http://h/\"},{\"layer\":\"demo\",\"url\":\"http://h/\"}]}",
        RendererFault::Duplicate(RendererField::Layer, 1),
    ),
    (
        b"{\"url\":\"http://h/\",\"connectSeconds\":61}",
        RendererFault::Limit(RendererField::ConnectSeconds, 0),
    ),
    (
        b"{\"url\":\"http://h/\",\"answerSeconds\":0}",
        RendererFault::Limit(RendererField::AnswerSeconds, 0),
    ),
    (
        b"{\"url\":\"http://h/\",\"renders\":\"8\"}",
        RendererFault::Bad(RendererField::Renders, 0),
    ),
    (
        b"{\"url\":\"https://h/\"}",
        RendererFault::Template(RendererField::Url, 0, TemplateFault::Scheme),
    ),
    (
        b"{\"url\":\"http://h/\",\"layers\":[{\"layer\":\"demo\",\"url\":\"http://h/{bbox}\"}]}",
        RendererFault::Template(RendererField::LayerUrl, 0, TemplateFault::UnknownName(9)),
    ),
];

/// Whether a text is refused for this cause.
fn refuses(alloc: Global, catalogue: &Catalogue, text: &[u8], expected: RendererFault) -> bool
    requires { IsValid catalogue.now }
{
    match RendererConfig::read(alloc, catalogue, text) {
        Ok(_) => false,
        Err(fault) => fault == expected,
    }
}

#[test]
fn each_fault_is_told(rt: HostRuntime) -> Result<(), Fail> {
    let alloc = rt.alloc();
    let catalogue = Catalogue::demo(alloc)?;
    for (text, fault) in REFUSED {
        assert!(rt; refuses(alloc, &catalogue, text, *fault));
    }
    Ok(())
}
