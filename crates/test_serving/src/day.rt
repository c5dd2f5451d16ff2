//! A day of an office: requests as bytes, and the bytes that answer them, worked out by hand from
//! `docs/HTTP.md`.

use crate::answers::{
    BAD_BODY, BAD_QUERY, DENIED, DEPOSIT_2, HELD_1, HOLD_1, HOLD_2, MAPS, NO_DEPOSIT, NO_DEPOSITS,
    NO_FILE, NO_HEAD, NO_HOLDS, TOO_LARGE, Y1,
};
use crate::desk::{Devices, put};
use crate::limits::take_limits;
use http_desk::DeskFault;
use office_engine::Office;
use sqlite::Alter;
use std::alloc::Global;
use std::test::Fail;

/// A request of 2024-03-01, and the bytes that answer it.
#[derive(Clone, Copy)]
struct Case {
    request: &'static [u8],
    answer: &'static [u8],
}

/// A request that the desk refuses.
const NO_ROUTE: &[u8] = b"GET /deposits/07/bag HTTP/1.1\r\nDepot-Caller: anna\r\n\r\n";

/// What the desk refuses, and the beginning of the day.
static MORNING: [Case; 20] = [
    Case {
        request: b"POST /deposits/7/bag HTTP/1.1\r\nDepot-Caller: anna\r\n\r\n",
        answer: b"HTTP/1.1 405 Method Not Allowed\r\nContent-Type: application/json\r\nContent-Length: 18\r\nAllow: GET\r\nConnection: close\r\n\r\n{\"error\":\"Method\"}",
    },
    Case {
        request: b"PUT /deposits HTTP/1.1\r\nDepot-Caller: anna\r\n\r\n",
        answer: b"HTTP/1.1 405 Method Not Allowed\r\nContent-Type: application/json\r\nContent-Length: 18\r\nAllow: GET, POST\r\nConnection: close\r\n\r\n{\"error\":\"Method\"}",
    },
    Case {
        request: b"POST /deposits/7 HTTP/1.1\r\nDepot-Caller: anna\r\n\r\n",
        answer: b"HTTP/1.1 405 Method Not Allowed\r\nContent-Type: application/json\r\nContent-Length: 18\r\nAllow: DELETE, GET\r\nConnection: close\r\n\r\n{\"error\":\"Method\"}",
    },
    Case {
        request: NO_ROUTE,
        answer: b"HTTP/1.1 404 Not Found\r\nContent-Type: application/json\r\nContent-Length: 19\r\nConnection: close\r\n\r\n{\"error\":\"NoRoute\"}",
    },
    Case {
        request: b"POST /deposits?collection=maps&class=y1&accession=A-1&closed=2025-02-29 HTTP/1.1\r\nDepot-Caller: anna\r\nContent-Length: 210\r\n\r\nBAGSET 1\nFILE 9 54\nbagit.txtBagIt-Version: 1.0\nTag-File-Character-Encoding: UTF-8\n\nFILE 6 3\ndata/aabc\nFILE 19 73\nmanifest-sha256.txtba7816bf8f01cfea414140de5dae2223b00361a396177a9cb410ff61f20015ad  data/a\n\nEND\n",
        answer: BAD_QUERY,
    },
    Case {
        request: b"POST /deposits?collection=maps&class=y1&accession=A-1&closed=2024-02-29&class=y1 HTTP/1.1\r\nDepot-Caller: anna\r\nContent-Length: 210\r\n\r\nBAGSET 1\nFILE 9 54\nbagit.txtBagIt-Version: 1.0\nTag-File-Character-Encoding: UTF-8\n\nFILE 6 3\ndata/aabc\nFILE 19 73\nmanifest-sha256.txtba7816bf8f01cfea414140de5dae2223b00361a396177a9cb410ff61f20015ad  data/a\n\nEND\n",
        answer: BAD_QUERY,
    },
    Case {
        request: b"PUT /classes/y1 HTTP/1.1\r\nDepot-Caller: anna\r\nContent-Length: 13\r\n\r\n{\"years\":201}",
        answer: BAD_BODY,
    },
    Case {
        request: b"POST /holds HTTP/1.1\r\nDepot-Caller: anna\r\nContent-Length: 46\r\n\r\n{\"deposit\":1,\"collection\":\"maps\",\"matter\":\"m\"}",
        answer: BAD_BODY,
    },
    Case {
        request: b"POST /holds HTTP/1.1\r\nDepot-Caller: anna\r\nContent-Length: 47\r\n\r\n{\"class\":\"y1\",\"collection\":\"maps\",\"matter\":\"m\"}",
        answer: BAD_BODY,
    },
    Case {
        request: b"GET /nothing HTTP/1.1\r\nDepot-Caller: anna\r\nDepot-Caller: carl\r\n\r\n",
        answer: b"HTTP/1.1 400 Bad Request\r\nContent-Type: application/json\r\nContent-Length: 22\r\nConnection: close\r\n\r\n{\"error\":\"TwoCallers\"}",
    },
    Case {
        request: b"GET /due HTTP/1.1\r\nDepot-Caller: anna\r\nTransfer-Encoding: chunked\r\nContent-Length: x\r\n\r\n",
        answer: b"HTTP/1.1 400 Bad Request\r\nContent-Type: application/json\r\nContent-Length: 19\r\nConnection: close\r\n\r\n{\"error\":\"Chunked\"}",
    },
    Case {
        request: b"GET /due HTTP/1.1\r\nDepot-Caller: anna\r\nContent-Length: x\r\nDepot-Caller: carl\r\n\r\n",
        answer: b"HTTP/1.1 400 Bad Request\r\nContent-Type: application/json\r\nContent-Length: 21\r\nConnection: close\r\n\r\n{\"error\":\"BadLength\"}",
    },
    Case {
        request: b"GET /due HTTP/1.1\r\nDepot-Caller: anna\r\nContent-Length: 16777217\r\n\r\n",
        answer: TOO_LARGE,
    },
    Case {
        request: b"GET /due\r\n\r\n",
        answer: NO_HEAD,
    },
    Case {
        request: b"GET /due HTTP/1.1\r\nDepot-Caller: anna\r\nContent-Length: 1\r\n\r\nx",
        answer: BAD_BODY,
    },
    Case {
        request: b"GET /deposits/7/bag HTTP/1.1\r\nDepot-Caller: anna\r\n\r\n",
        answer: NO_DEPOSIT,
    },
    Case {
        request: b"PUT /collections/maps HTTP/1.1\r\nDepot-Caller: carl\r\n\r\n",
        answer: DENIED,
    },
    Case {
        request: b"PUT /collections/maps HTTP/1.1\r\nDepot-Caller: anna\r\n\r\n",
        answer: MAPS,
    },
    Case {
        request: b"PUT /classes/y1 HTTP/1.1\r\nDepot-Caller: anna\r\nContent-Length: 11\r\n\r\n{\"years\":1}",
        answer: Y1,
    },
    Case {
        request: b"PUT /classes/kept HTTP/1.1\r\nDepot-Caller: anna\r\nContent-Length: 14\r\n\r\n{\"years\":null}",
        answer: b"HTTP/1.1 200 OK\r\nContent-Type: application/json\r\nContent-Length: 29\r\nConnection: close\r\n\r\n{\"class\":\"kept\",\"years\":null}",
    },
];

/// A deposit.
const DEPOSIT: &[u8] =
    b"POST /deposits?collection=maps&class=y1&accession=A-1&closed=2024-02-29 HTTP/1.1\r\nDepot-Caller: anna\r\nContent-Length: 210\r\n\r\nBAGSET 1\nFILE 9 54\nbagit.txtBagIt-Version: 1.0\nTag-File-Character-Encoding: UTF-8\n\nFILE 6 3\ndata/aabc\nFILE 19 73\nmanifest-sha256.txtba7816bf8f01cfea414140de5dae2223b00361a396177a9cb410ff61f20015ad  data/a\n\nEND\n";

/// The rest of the day, after that deposit.
static DAY: [Case; 34] = [
    Case {
        request: b"POST /deposits?collection=maps&class=y1&accession=A-1&closed=2024-02-29 HTTP/1.1\r\nDepot-Caller: anna\r\nContent-Length: 0\r\n\r\n",
        answer: b"HTTP/1.1 409 Conflict\r\nContent-Type: application/json\r\nContent-Length: 29\r\nConnection: close\r\n\r\n{\"deposit\":1,\"error\":\"Taken\"}",
    },
    Case {
        request: b"POST /deposits?collection=maps&class=y1&accession=A-2&closed=2024-02-29 HTTP/1.1\r\nDepot-Caller: anna\r\nContent-Length: 0\r\n\r\n",
        answer: b"HTTP/1.1 422 Unprocessable Content\r\nContent-Type: application/json\r\nContent-Length: 31\r\nConnection: close\r\n\r\n{\"error\":\"BadBag\",\"fault\":\"S3\"}",
    },
    Case {
        request: b"POST /deposits?collection=maps&class=y1&accession=A-2&closed=2024-03-02 HTTP/1.1\r\nDepot-Caller: anna\r\nContent-Length: 210\r\n\r\nBAGSET 1\nFILE 9 54\nbagit.txtBagIt-Version: 1.0\nTag-File-Character-Encoding: UTF-8\n\nFILE 6 3\ndata/aabc\nFILE 19 73\nmanifest-sha256.txtba7816bf8f01cfea414140de5dae2223b00361a396177a9cb410ff61f20015ad  data/a\n\nEND\n",
        answer: b"HTTP/1.1 409 Conflict\r\nContent-Type: application/json\r\nContent-Length: 23\r\nConnection: close\r\n\r\n{\"error\":\"ClosedAhead\"}",
    },
    Case {
        request: b"GET /deposits/1 HTTP/1.1\r\nDepot-Caller: anna\r\n\r\n",
        answer: b"HTTP/1.1 200 OK\r\nContent-Type: application/json\r\nContent-Length: 150\r\nConnection: close\r\n\r\n{\"accession\":\"A-1\",\"bytes\":3,\"class\":\"y1\",\"closed\":\"2024-02-29\",\"collection\":\"maps\",\"deposit\":1,\"deposited\":\"2024-03-01\",\"due\":\"2025-02-28\",\"files\":1}",
    },
    Case {
        request: b"GET /deposits HTTP/1.1\r\nDepot-Caller: anna\r\n\r\n",
        answer: b"HTTP/1.1 200 OK\r\nContent-Type: application/json\r\nContent-Length: 165\r\nConnection: close\r\n\r\n{\"deposits\":[{\"accession\":\"A-1\",\"bytes\":3,\"class\":\"y1\",\"closed\":\"2024-02-29\",\"collection\":\"maps\",\"deposit\":1,\"deposited\":\"2024-03-01\",\"due\":\"2025-02-28\",\"files\":1}]}",
    },
    Case {
        request: b"GET /deposits?class=y10 HTTP/1.1\r\nDepot-Caller: anna\r\n\r\n",
        answer: NO_DEPOSITS,
    },
    Case {
        request: b"GET /deposits/1/bag HTTP/1.1\r\nDepot-Caller: anna\r\n\r\n",
        answer: b"HTTP/1.1 200 OK\r\nContent-Type: application/octet-stream\r\nContent-Length: 210\r\nConnection: close\r\n\r\nBAGSET 1\nFILE 9 54\nbagit.txtBagIt-Version: 1.0\nTag-File-Character-Encoding: UTF-8\n\nFILE 6 3\ndata/aabc\nFILE 19 73\nmanifest-sha256.txtba7816bf8f01cfea414140de5dae2223b00361a396177a9cb410ff61f20015ad  data/a\n\nEND\n",
    },
    Case {
        request: b"GET /deposits/1/files/data/%61 HTTP/1.1\r\nDepot-Caller: anna\r\n\r\n",
        answer: b"HTTP/1.1 200 OK\r\nContent-Type: application/octet-stream\r\nContent-Length: 3\r\nConnection: close\r\n\r\nabc",
    },
    Case {
        request: b"GET /deposits/1/files/data/%2561 HTTP/1.1\r\nDepot-Caller: anna\r\n\r\n",
        answer: NO_FILE,
    },
    Case {
        request: b"GET /deposits/1/audit HTTP/1.1\r\nDepot-Caller: anna\r\n\r\n",
        answer: b"HTTP/1.1 200 OK\r\nContent-Type: application/json\r\nContent-Length: 76\r\nConnection: close\r\n\r\n{\"bytes\":3,\"deposit\":1,\"files\":1,\"manifests\":1,\"valid\":true,\"version\":\"1.0\"}",
    },
    Case {
        request: b"GET /deposits/1 HTTP/1.1\r\nDepot-Caller: carl\r\n\r\n",
        answer: DENIED,
    },
    Case {
        request: b"GET /deposits/1/audit HTTP/1.1\r\nDepot-Caller: carl\r\n\r\n",
        answer: DENIED,
    },
    Case {
        request: b"GET /deposits/1/holds HTTP/1.1\r\nDepot-Caller: carl\r\n\r\n",
        answer: DENIED,
    },
    Case {
        request: b"GET /deposits/1/holds HTTP/1.1\r\nDepot-Caller: anna\r\n\r\n",
        answer: NO_HOLDS,
    },
    Case {
        request: b"GET /deposits?collection=x HTTP/1.1\r\nDepot-Caller: anna\r\n\r\n",
        answer: NO_DEPOSITS,
    },
    Case {
        request: b"POST /holds HTTP/1.1\r\nDepot-Caller: anna\r\nContent-Length: 36\r\n\r\n{\"collection\":\"x\",\"matter\":\"Case 7\"}",
        answer: b"HTTP/1.1 404 Not Found\r\nContent-Type: application/json\r\nContent-Length: 38\r\nConnection: close\r\n\r\n{\"error\":\"NoSuch\",\"what\":\"collection\"}",
    },
    Case {
        request: b"POST /deposits?collection=maps&class=y10&accession=A-2&closed=2024-02-29 HTTP/1.1\r\nDepot-Caller: anna\r\nContent-Length: 221\r\n\r\nBAGSET 1\nFILE 9 54\nbagit.txtBagIt-Version: 1.0\nTag-File-Character-Encoding: UTF-8\n\nFILE 10 3\ndata/a%0Ababc\nFILE 19 79\nmanifest-sha256.txtba7816bf8f01cfea414140de5dae2223b00361a396177a9cb410ff61f20015ad  data/a%250Ab\n\nEND\n",
        answer: DEPOSIT_2,
    },
    Case {
        request: b"GET /deposits/2/files/data/a%250Ab HTTP/1.1\r\nDepot-Caller: anna\r\n\r\n",
        answer: b"HTTP/1.1 200 OK\r\nContent-Type: application/octet-stream\r\nContent-Length: 3\r\nConnection: close\r\n\r\nabc",
    },
    Case {
        request: b"GET /deposits/2/files/data/b HTTP/1.1\r\nDepot-Caller: anna\r\n\r\n",
        answer: NO_FILE,
    },
    Case {
        request: b"GET /deposits/2/files// HTTP/1.1\r\nDepot-Caller: anna\r\n\r\n",
        answer: NO_FILE,
    },
    Case {
        request: b"GET /deposits/0 HTTP/1.1\r\nDepot-Caller: anna\r\n\r\n",
        answer: NO_DEPOSIT,
    },
    Case {
        request: b"GET /deposits/2/files/data/a%250Ab HTTP/1.1\r\nDepot-Caller: carl\r\n\r\n",
        answer: DENIED,
    },
    Case {
        request: b"POST /holds HTTP/1.1\r\nDepot-Caller: anna\r\nContent-Length: 39\r\n\r\n{\"collection\":\"maps\",\"matter\":\"Case 7\"}",
        answer: HOLD_1,
    },
    Case {
        request: b"POST /holds HTTP/1.1\r\nDepot-Caller: anna\r\nContent-Length: 31\r\n\r\n{\"deposit\":1,\"matter\":\"\\u00e9\"}",
        answer: HOLD_2,
    },
    Case {
        request: b"DELETE /deposits/1 HTTP/1.1\r\nDepot-Caller: anna\r\n\r\n",
        answer: HELD_1,
    },
    Case {
        request: b"DELETE /holds/1 HTTP/1.1\r\nDepot-Caller: anna\r\n\r\n",
        answer: b"HTTP/1.1 200 OK\r\nContent-Type: application/json\r\nContent-Length: 34\r\nConnection: close\r\n\r\n{\"hold\":1,\"released\":\"2024-03-01\"}",
    },
    Case {
        request: b"DELETE /holds/1 HTTP/1.1\r\nDepot-Caller: anna\r\n\r\n",
        answer: b"HTTP/1.1 409 Conflict\r\nContent-Type: application/json\r\nContent-Length: 39\r\nConnection: close\r\n\r\n{\"day\":\"2024-03-01\",\"error\":\"Released\"}",
    },
    Case {
        request: b"DELETE /holds/2 HTTP/1.1\r\nDepot-Caller: anna\r\n\r\n",
        answer: b"HTTP/1.1 200 OK\r\nContent-Type: application/json\r\nContent-Length: 34\r\nConnection: close\r\n\r\n{\"hold\":2,\"released\":\"2024-03-01\"}",
    },
    Case {
        request: b"GET /deposits/1/holds HTTP/1.1\r\nDepot-Caller: anna\r\n\r\n",
        answer: NO_HOLDS,
    },
    Case {
        request: b"DELETE /deposits/1 HTTP/1.1\r\nDepot-Caller: anna\r\n\r\n",
        answer: b"HTTP/1.1 409 Conflict\r\nContent-Type: application/json\r\nContent-Length: 37\r\nConnection: close\r\n\r\n{\"due\":\"2025-02-28\",\"error\":\"NotDue\"}",
    },
    Case {
        request: b"PUT /classes/y1 HTTP/1.1\r\nDepot-Caller: anna\r\nContent-Length: 11\r\n\r\n{\"years\":0}",
        answer: b"HTTP/1.1 200 OK\r\nContent-Type: application/json\r\nContent-Length: 24\r\nConnection: close\r\n\r\n{\"class\":\"y1\",\"years\":0}",
    },
    Case {
        request: b"GET /due HTTP/1.1\r\nDepot-Caller: anna\r\n\r\n",
        answer: b"HTTP/1.1 200 OK\r\nContent-Type: application/json\r\nContent-Length: 35\r\nConnection: close\r\n\r\n{\"day\":\"2024-03-01\",\"deposits\":[1]}",
    },
    Case {
        request: b"DELETE /deposits/1 HTTP/1.1\r\nDepot-Caller: anna\r\n\r\n",
        answer: b"HTTP/1.1 200 OK\r\nContent-Type: application/json\r\nContent-Length: 34\r\nConnection: close\r\n\r\n{\"day\":\"2024-03-01\",\"destroyed\":1}",
    },
    Case {
        request: b"GET /deposits/1 HTTP/1.1\r\nDepot-Caller: anna\r\n\r\n",
        answer: b"HTTP/1.1 410 Gone\r\nContent-Type: application/json\r\nContent-Length: 35\r\nConnection: close\r\n\r\n{\"day\":\"2024-03-01\",\"error\":\"Gone\"}",
    },
];

/// Puts the cases to the office in turn.
fn take<S: Alter>(alloc: Global, office: &mut Office<S>, cases: &[Case]) -> Result<(), Fail> {
    for case in cases {
        let devices = Devices::narrow(case.request, u64::MAX);
        put(alloc, office, case.request, devices, Ok(()), case.answer)?;
    }
    Ok(())
}

/// A writer that fails after some bytes has a beginning of the answer, and the office has the
/// change.
fn take_failed_writes<S: Alter>(alloc: Global, office: &mut Office<S>) -> Result<(), Fail> {
    let devices = Devices::narrow(DEPOSIT, 17);
    let fault = Err(DeskFault::Write { done: true });
    put(alloc, office, DEPOSIT, devices, fault, b"HTTP/1.1 201 Crea")?;
    let devices = Devices::narrow(NO_ROUTE, 0);
    let fault = Err(DeskFault::Write { done: false });
    put(alloc, office, NO_ROUTE, devices, fault, b"")
}

/// What the desk refuses, a day of an office, and writers that fail. The reader fails after the
/// last byte of each request, and is not asked for more. Then requests at the limits.
pub(crate) fn take_day<S: Alter>(alloc: Global, office: &mut Office<S>) -> Result<(), Fail> {
    take(alloc, office, &MORNING)?;
    take_failed_writes(alloc, office)?;
    take(alloc, office, &DAY)?;
    take_limits(alloc, office)
}
