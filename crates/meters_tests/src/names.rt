//! metrics_text: which names are refused
use metrics_text::{is_label_name, is_metric_name};
use std::test::Fail;

#[test]
fn a_metric_has_letters_figures_lines_and_colons(rt: HostRuntime) -> Result<(), Fail> {
    assert!(rt; is_metric_name(b"tile_server_requests_total"));
    assert!(rt; is_metric_name(b":rate5m"));
    assert!(rt; is_metric_name(b"_"));
    assert!(rt; !is_metric_name(b""));
    assert!(rt; !is_metric_name(b"5xx"));
    assert!(rt; !is_metric_name(b"requests total"));
    assert!(rt; !is_metric_name(b"requests\n"));
    assert!(rt; !is_metric_name(b"h\xc3\xb6he"));
    Ok(())
}

#[test]
fn a_label_has_no_colon(rt: HostRuntime) -> Result<(), Fail> {
    assert!(rt; is_label_name(b"layer2"));
    assert!(rt; is_label_name(b"_x"));
    assert!(rt; !is_label_name(b"job:rate"));
    assert!(rt; !is_label_name(b"2nd"));
    assert!(rt; !is_label_name(b"a\"b"));
    assert!(rt; !is_label_name(b""));
    Ok(())
}
