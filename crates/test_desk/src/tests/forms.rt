//! The calls of `desk_forms`, on their happy paths, bodies that say no hold, and what paths mean. Each
//! query and each body that is refused is in the stored replay.

use crate::tests::rows::holds;
use desk_forms::{
    BodyFault, HoldBody, Listing, QueryFault, check_no_body, check_no_query, decode_path,
    read_deposit_query, read_hold, read_listing, read_years,
};
use office_core::{Day, OwnedDescription};
use std::alloc::{AllocError, Global};
use std::test::*;

#[test]
fn no_query_and_no_body(rt: HostRuntime) {
    assert!(rt; check_no_query(b"&&") == Ok(()));
    assert!(rt; check_no_query(b"%26") == Err(QueryFault::BadQuery));
    assert!(rt; check_no_body(b"") == Ok(()));
    assert!(rt; check_no_body(b" ") == Err(BodyFault::BadBody));
}

/// Whether the listing is of the class alone.
fn is_of_class(listing: &Listing, class: &str) -> bool {
    match &listing.class {
        Some(name) => name.as_str() == class && listing.collection.is_none(),
        None => false,
    }
}

#[test]
fn a_listing(rt: HostRuntime) -> Result<(), Fail> {
    let listing = read_listing(rt.alloc(), b"&class=%79%31&")?;
    assert!(rt; is_of_class(&listing, "y1"));
    Ok(())
}

/// Whether the query names the deposit `A-1`.
fn is_a_1(deposit: &OwnedDescription) -> bool {
    deposit.collection.as_str() == "tax"
        && deposit.class.as_str() == "y10"
        && deposit.accession.as_str() == "A-1"
        && Some(deposit.closed) == Day::read("2024-02-29")
}

#[test]
fn a_deposit_query(rt: HostRuntime) -> Result<(), Fail> {
    let query = b"closed=2024-02-29&accession=A%2D1&class=y10&collection=tax";
    let deposit = read_deposit_query(rt.alloc(), query)?;
    assert!(rt; is_a_1(&deposit));
    Ok(())
}

#[test]
fn years(rt: HostRuntime) -> Result<(), Fail> {
    let years = read_years(rt.alloc(), b"{\"years\":201,\"years\":200}")?;
    assert!(rt; years.count() == Some(200));
    Ok(())
}

/// Bodies, and the hold that each says, in words.
static HOLDS: [(&str, &str); 11] = [
    (
        "{\"deposit\":7,\"matter\":\"\\u00e9 \\\"q\\\" /\"}",
        "deposit 7 for \u{e9} \"q\" /",
    ),
    (
        "{\"class\":\"y1\",\"matter\":\"Case 7\"}",
        "class y1 for Case 7",
    ),
    (
        "{\"matter\":\"Case 7\",\"class\":\"y1\"}",
        "class y1 for Case 7",
    ),
    (
        "{\"class\":\"y1\",\"collection\":\"maps\",\"matter\":\"m\"}",
        "no hold",
    ),
    (
        "{\"class\":\"y1\",\"deposit\":1,\"matter\":\"m\"}",
        "no hold",
    ),
    (
        "{\"class\":\"y1\",\"collection\":\"maps\",\"deposit\":1,\"matter\":\"m\"}",
        "no hold",
    ),
    ("{\"class\":\"y1\",\"collection\":\"maps\"}", "no hold"),
    ("{\"class\":\"Y1\",\"matter\":\"m\"}", "no hold"),
    ("{\"class\":1,\"matter\":\"m\"}", "no hold"),
    ("{\"class\":\"y1\"}", "no hold"),
    ("{\"class\":\"y1\",\"matter\":\"\"}", "no hold"),
];

/// The hold that a body says, in words.
fn hold_words(alloc: Global, hold: &HoldBody) -> Result<String, AllocError> {
    match hold {
        HoldBody::Deposit { deposit, matter } => {
            let matter = matter.as_str();
            format!(in alloc; "deposit {deposit} for {matter}")
        }
        HoldBody::Class { class, matter } => {
            let class = class.as_str();
            let matter = matter.as_str();
            format!(in alloc; "class {class} for {matter}")
        }
        HoldBody::Collection { .. } => String::from_str(alloc, "collection"),
    }
}

/// What a body says, in words.
fn said_of(alloc: Global, body: &str) -> Result<String, AllocError> {
    match read_hold(alloc, body.as_bytes()) {
        Ok(hold) => hold_words(alloc, &hold),
        Err(BodyFault::BadBody) => String::from_str(alloc, "no hold"),
        Err(_) => Err(AllocError),
    }
}

#[test]
fn bodies_of_holds(rt: HostRuntime) -> Result<(), AllocError> {
    for (body, words) in &HOLDS {
        holds(&rt, said_of(rt.alloc(), body)?.as_str() == *words, body);
    }
    Ok(())
}

/// Paths, and the bytes that each means.
static PATHS: [(&str, &[u8]); 16] = [
    ("data/a", b"data/a"),
    ("data%2Fa", b"data/a"),
    ("data%2fa%20b", b"data/a b"),
    ("%64ata/%61", b"data/a"),
    ("a+b", b"a+b"),
    ("%2541", b"%41"),
    ("%25%34%31", b"%41"),
    ("%%41", b"%A"),
    ("100%", b"100%"),
    ("%4", b"%4"),
    ("%4g", b"%4g"),
    ("%g4", b"%g4"),
    ("%C3%a9", b"\xc3\xa9"),
    ("%ff%00", b"\xff\x00"),
    ("/", b"/"),
    ("", b""),
];

#[test]
fn paths(rt: HostRuntime) -> Result<(), Fail> {
    for (path, bytes) in &PATHS {
        holds(
            &rt,
            decode_path(rt.alloc(), path)?.as_bytes() == *bytes,
            path,
        );
    }
    Ok(())
}
