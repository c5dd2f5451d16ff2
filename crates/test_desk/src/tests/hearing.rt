//! The calls of `desk_hearing`, on their happy path: a reader that gives one byte a call is heard as one that
//! gives all. What else is heard is in the stored replay.

use crate::tests::rows::holds;
use desk_devices::{Counted, FailAt, Portion};
use desk_hearing::{Heard, HeardFault, read_request};
use desk_routes::DeskRefusal;
use office_core::Request;
use std::alloc::{AllocError, Global};
use std::test::*;

/// Bytes, and what is heard of them.
static HEARD: [(&[u8], &str); 4] = [
    (
        b"POST /deposits?collection=tax&class=y10&accession=A-1&closed=2024-02-29 HTTP/1.1\r\n\
        Depot-Caller: anna\r\nContent-Length: 5\r\n\r\nBAG\r\nGET /due HTTP/1.1\r\n\r\n",
        "anna deposits in tax as y10: BAG\r\n",
    ),
    (
        b"POST /holds HTTP/1.1\r\nDepot-Caller: anna\r\nContent-Length: 32\r\n\r\n{\"class\":\"y1\",\"matter\":\"Case 7\"}",
        "anna holds y1 for Case 7",
    ),
    (b"GET /due HTTP/1.1\n\n", " asks what is due"),
    (
        b"GET /nothing HTTP/1.1\nDepot-Caller: anna\nDepot-Caller: carl\n\n",
        "two callers",
    ),
];

/// What is asked, in words.
fn asked_words(alloc: Global, request: &Request<'_>) -> Result<String, AllocError> {
    match request {
        Request::Deposit { description, bag } => {
            let collection = description.collection.as_str();
            let class = description.class.as_str();
            let bag = str::from_utf8(bag).unwrap_or("no text");
            format!(in alloc; "deposits in {collection} as {class}: {bag}")
        }
        Request::HoldClass { class, matter } => {
            let class = class.as_str();
            let matter = matter.as_str();
            format!(in alloc; "holds {class} for {matter}")
        }
        Request::DueList => String::from_str(alloc, "asks what is due"),
        _ => String::from_str(alloc, "asks for another thing"),
    }
}

/// Who asks for what, in words.
fn heard_words(alloc: Global, heard: &Heard) -> Result<String, AllocError> {
    let caller = heard.caller();
    let asked = asked_words(alloc, &heard.request())?;
    format!(in alloc; "{caller} {asked}")
}

/// What is heard of the bytes, in words.
fn said_of(alloc: Global, bytes: &[u8], portion: Portion) -> Result<String, AllocError> {
    let mut reader = Counted::new(FailAt::new(bytes, portion, 1000));
    match read_request(alloc, &mut reader) {
        Ok(heard) => heard_words(alloc, &heard),
        Err(HeardFault::Refused(DeskRefusal::TwoCallers)) => String::from_str(alloc, "two callers"),
        Err(_) => String::from_str(alloc, "another fault"),
    }
}

/// Whether this is heard of the bytes, whether they come at once or one by one.
fn is_heard(alloc: Global, bytes: &[u8], words: &str) -> Result<bool, AllocError> {
    Ok(
        said_of(alloc, bytes, Portion::All)?.as_str() == words
            && said_of(alloc, bytes, Portion::OneByte)?.as_str() == words,
    )
}

#[test]
fn requests_are_heard(rt: HostRuntime) -> Result<(), AllocError> {
    for (bytes, words) in &HEARD {
        holds(&rt, is_heard(rt.alloc(), bytes, words)?, words);
    }
    Ok(())
}
