//! Tests of schedule_text.
use schedule_text::{LineFault, Verb, read_line};
use std::test::Fail;

#[test]
fn a_line_names_actor_verb_and_rest(rt: HostRuntime) -> Result<(), Fail> {
    let line = read_line(b"63 TRUNCATE {\"a\": 1}").ok().ok_or("no line")?;
    assert!(rt; (line.actor, line.verb) == (63, Verb::Truncate));
    assert!(rt; (line.rest.start, line.rest.length) == (12, 8));
    assert!(rt; matches!(read_line(&[b'0'; 16_385]), Err(LineFault::TooLong)));
    Ok(())
}
