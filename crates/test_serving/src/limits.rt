//! Requests at the limits of what is heard, and such as end early. Each comes byte by byte, and at
//! once.

use crate::answers::{NO_DEPOSIT, NO_HEAD, TOO_LARGE, TRUNCATED};
use crate::desk::{Devices, put};
use http_desk::{DeskFault, Portion};
use office_engine::Office;
use sqlite::Alter;
use std::alloc::Global;
use std::test::Fail;

const NO_BAG: &[u8] =
    b"HTTP/1.1 422 Unprocessable Content\r\nContent-Type: application/json\r\nContent-Length: 31\r\nConnection: close\r\n\r\n{\"error\":\"BadBag\",\"fault\":\"S1\"}";

/// Asks for a bag that isn't there.
const ASKS: &[u8] = b"GET /deposits/7/bag HTTP/1.1\r\nDepot-Caller: anna\r\n\r\n";

/// A request, and what answers it.
struct Limit {
    /// How it begins.
    front: &'static [u8],
    /// What follows that.
    filling: &'static [u8],
    /// How often.
    times: usize,
    /// How it ends.
    back: &'static [u8],
    answer: &'static [u8],
}

/// None of these changes the office.
static LIMITS: [Limit; 9] = [
    Limit {
        front: ASKS,
        filling: b"",
        times: 0,
        back: b"",
        answer: NO_DEPOSIT,
    },
    // A head of 8,192 bytes, and one of 8,193.
    Limit {
        front: b"GET /deposits/7 HTTP/1.1\r\nDepot-Caller: anna\r\nX: ",
        filling: b"x",
        times: 8_139,
        back: b"\r\n\r\n",
        answer: NO_DEPOSIT,
    },
    Limit {
        front: b"GET /deposits/7 HTTP/1.1\r\nDepot-Caller: anna\r\nX: ",
        filling: b"x",
        times: 8_140,
        back: b"\r\n\r\n",
        answer: TOO_LARGE,
    },
    // A head of 64 fields, and one of 65.
    Limit {
        front: b"GET /deposits/7 HTTP/1.1\r\nDepot-Caller: anna\r\n",
        filling: b"A: b\r\n",
        times: 63,
        back: b"\r\n",
        answer: NO_DEPOSIT,
    },
    Limit {
        front: b"GET /deposits/7 HTTP/1.1\r\nDepot-Caller: anna\r\n",
        filling: b"A: b\r\n",
        times: 64,
        back: b"\r\n",
        answer: NO_HEAD,
    },
    // A body of 16 MiB, and one of a byte more.
    Limit {
        front: b"POST /deposits?collection=maps&class=y1&accession=X-1&closed=2024-02-29 HTTP/1.1\r\nDepot-Caller: anna\r\nContent-Length: 16777216\r\n\r\n",
        filling: b"xxxxxxxxxxxxxxxx",
        times: 1_048_576,
        back: b"",
        answer: NO_BAG,
    },
    Limit {
        front: b"POST /deposits?collection=maps&class=y1&accession=X-1&closed=2024-02-29 HTTP/1.1\r\nDepot-Caller: anna\r\nContent-Length: 16777217\r\n\r\n",
        filling: b"xxxxxxxxxxxxxxxx",
        times: 1_048_576,
        back: b"x",
        answer: TOO_LARGE,
    },
    // A body that ends early, and one with bytes after it.
    Limit {
        front: b"POST /deposits?collection=maps&class=y1&accession=X-1&closed=2024-02-29 HTTP/1.1\r\nDepot-Caller: anna\r\nContent-Length: 5\r\n\r\n",
        filling: b"x",
        times: 3,
        back: b"",
        answer: TRUNCATED,
    },
    Limit {
        front: b"POST /deposits?collection=maps&class=y1&accession=X-1&closed=2024-02-29 HTTP/1.1\r\nDepot-Caller: anna\r\nContent-Length: 5\r\n\r\n",
        filling: b"x",
        times: 7,
        back: b"",
        answer: NO_BAG,
    },
];

/// The bytes of the request.
fn bytes_of(alloc: Global, limit: &Limit) -> Result<Vec<u8>, Fail> {
    let mut request = Vec::from_slice(alloc, limit.front)?;
    for _ in 0..limit.times {
        request.extend_from_slice(limit.filling)?;
    }
    request.extend_from_slice(limit.back)?;
    Ok(request)
}

/// A request comes byte by byte, and at once. The reader ends after its last byte.
fn put_both_ways<S: Alter>(
    alloc: Global,
    office: &mut Office<S>,
    request: &[u8],
    answer: &[u8],
) -> Result<(), Fail> {
    for portion in [Portion::OneByte, Portion::All] {
        put(
            alloc,
            office,
            request,
            Devices::whole(portion),
            Ok(()),
            answer,
        )?;
    }
    Ok(())
}

/// A request of which a beginning is given alone, be it all but one byte, ends too early; where the
/// reader fails after it, it is not heard.
fn take_beginnings<S: Alter>(alloc: Global, office: &mut Office<S>) -> Result<(), Fail> {
    for length in 0..ASKS.len() {
        let beginning = &ASKS[..length];
        let devices = Devices::narrow(beginning, u64::MAX);
        put(alloc, office, beginning, devices, Err(DeskFault::Read), b"")?;
        put_both_ways(alloc, office, beginning, TRUNCATED)?;
    }
    Ok(())
}

/// Requests at the limits, and beginnings of one, none of which changes the office.
pub(crate) fn take_limits<S: Alter>(alloc: Global, office: &mut Office<S>) -> Result<(), Fail> {
    for limit in &LIMITS {
        let request = bytes_of(alloc, limit)?;
        put_both_ways(alloc, office, &request, limit.answer)?;
    }
    take_beginnings(alloc, office)
}
