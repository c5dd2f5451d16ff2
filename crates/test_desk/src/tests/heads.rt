//! The call of `desk_heads`, on its happy path. What else heads say is in the stored replay.

use desk_heads::{HeadRefusal, MAX_BODY, judge_head};
use std::test::*;

#[test]
fn takes_a_head(rt: HostRuntime) -> Result<(), Fail> {
    let front = "POST /holds?a=b HTTP/1.1\nHost: a\nCONTENT-length: \t35 \ndepot-caller:carl\t\n\n";
    let head = judge_head(front.as_bytes())?;
    assert!(rt; head.method == "POST");
    assert!(rt; head.target == "/holds?a=b");
    assert!(rt; head.body_length == 35);
    assert!(rt; matches!(&head.caller, Some(name) if name.as_str() == "carl"));
    assert!(rt; MAX_BODY == 16_777_216);
    Ok(())
}

#[test]
fn refuses_a_target_that_is_no_text(rt: HostRuntime) {
    let front = b"GET /\xff HTTP/1.1\r\n\r\n";
    assert!(rt; matches!(judge_head(front), Err(HeadRefusal::BadHead)));
}
