//! The calls of `desk_answers`, on answers that the stored replay has not.

use desk_answers::{answer_bytes, refusal_bytes};
use desk_routes::DeskRefusal;
use office_core::{
    Answer, AuditReport, Day, FaultText, LiveHold, Matter, Refusal, Scope, Sequence,
};
use std::alloc::Global;
use std::test::*;

/// The names of refusals, and the bytes of each.
static REFUSED: [(&str, &str); 3] = [
    (
        "Full",
        "HTTP/1.1 409 Conflict\r\nContent-Type: application/json\r\nContent-Length: 16\r\nConnection: close\r\n\r\n{\"error\":\"Full\"}",
    ),
    (
        "Memory",
        "HTTP/1.1 503 Service Unavailable\r\nContent-Type: application/json\r\nContent-Length: 18\r\nConnection: close\r\n\r\n{\"error\":\"Memory\"}",
    ),
    (
        "Store",
        "HTTP/1.1 503 Service Unavailable\r\nContent-Type: application/json\r\nContent-Length: 17\r\nConnection: close\r\n\r\n{\"error\":\"Store\"}",
    ),
];

/// Fails where the answer has other bytes.
fn take(alloc: Global, answer: &Answer, bytes: &'static str) -> Result<(), Fail> {
    if answer_bytes(alloc, answer)?.as_slice() == bytes.as_bytes() {
        Ok(())
    } else {
        Err(bytes.into())
    }
}

/// The refusal of that name.
fn refusal_named(name: &str) -> Refusal {
    match name {
        "Full" => Refusal::Full,
        "Memory" => Refusal::Memory,
        _ => Refusal::Store,
    }
}

#[test]
fn answers_that_a_session_seldom_has(rt: HostRuntime) -> Result<(), Fail> {
    for (name, bytes) in &REFUSED {
        take(rt.alloc(), &Answer::Refused(refusal_named(name)), bytes)?;
    }
    Ok(())
}

const AUDITED: &str =
    "HTTP/1.1 200 OK\r\nContent-Type: application/json\r\nContent-Length: 63\r\nConnection: close\r\n\r\n{\"deposit\":1,\"fault\":\"B6 manifest-\\\"\\\\.txt L6 2\",\"valid\":false}";

#[test]
fn an_audit_of_what_is_no_bag(rt: HostRuntime) -> Result<(), Fail> {
    let fault = FaultText::of(String::from_str(rt.alloc(), "B6 manifest-\"\\.txt L6 2")?);
    let report = AuditReport::Invalid(fault);
    take(rt.alloc(), &Answer::Audit { deposit: 1, report }, AUDITED)
}

/// A hold for `Case 7`.
fn hold(alloc: Global, number: u32, on: Scope, placed: &str) -> Result<LiveHold, Fail> {
    let matter = Matter::read("Case 7").ok_or("no matter")?;
    Ok(LiveHold {
        number,
        matter: matter.to_owned(alloc)?,
        on,
        placed: Day::read(placed).ok_or("no day")?,
    })
}

const HOLDS: &str =
    "HTTP/1.1 200 OK\r\nContent-Type: application/json\r\nContent-Length: 210\r\nConnection: close\r\n\r\n{\"holds\":[{\"hold\":1,\"matter\":\"Case 7\",\"on\":\"class\",\"placed\":\"2024-03-02\"},{\"hold\":2,\"matter\":\"Case 7\",\"on\":\"collection\",\"placed\":\"2024-03-03\"},{\"hold\":3,\"matter\":\"Case 7\",\"on\":\"deposit\",\"placed\":\"2024-03-03\"}]}";

#[test]
fn holds_of_each_scope(rt: HostRuntime) -> Result<(), Fail> {
    let mut holds = Vec::new(rt.alloc());
    holds.push(hold(rt.alloc(), 1, Scope::Class, "2024-03-02")?)?;
    holds.push(hold(rt.alloc(), 2, Scope::Collection, "2024-03-03")?)?;
    holds.push(hold(rt.alloc(), 3, Scope::Deposit, "2024-03-03")?)?;
    let holds = Sequence::of(holds);
    take(rt.alloc(), &Answer::Holds { holds }, HOLDS)
}

const TOO_LARGE: &str =
    "HTTP/1.1 413 Content Too Large\r\nContent-Type: application/json\r\nContent-Length: 20\r\nConnection: close\r\n\r\n{\"error\":\"TooLarge\"}";

#[test]
fn a_refusal_of_the_desk(rt: HostRuntime) -> Result<(), Fail> {
    let bytes = refusal_bytes(rt.alloc(), &DeskRefusal::TooLarge)?;
    assert!(rt; bytes.as_slice() == TOO_LARGE.as_bytes());
    Ok(())
}
