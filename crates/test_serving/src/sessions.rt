//! Sessions that last several days, worked out by hand from `docs/HTTP.md`: one with holds on classes, after which a
//! stored content is altered, and one under a policy whose rules have days.

use crate::answers::{
    BAD_BODY, DENIED, DEPOSIT_1, DEPOSIT_2, DEPOSIT_3, HELD_1, HOLD_1, HOLD_2, HOLD_3, NO_CLASS,
    NO_HOLDS, STORE_FAILED,
};
use crate::desk::{Devices, compare, serve_request};
use crate::troubles::altered;
use office_core::read_policy;
use office_engine::Office;
use sqlite::Alter;
use std::alloc::Global;
use std::test::Fail;
use test_sessions::POLICY_WITH_DAYS;

/// A request of that day, and the bytes that answer it.
#[derive(Clone, Copy)]
struct Case {
    day: &'static str,
    request: &'static [u8],
    answer: &'static [u8],
}

/// Holds on classes and on a collection. A deposit that comes later is covered by those on its class and on its
/// collection, and by no others; of two that cover a deposit each is named while it is the least that lives.
static HOLDS: [Case; 26] = [
    Case {
        day: "2024-03-02",
        request: b"POST /holds HTTP/1.1\r\nDepot-Caller: anna\r\nContent-Length: 32\r\n\r\n{\"class\":\"y1\",\"matter\":\"Case 7\"}",
        answer: HOLD_1,
    },
    Case {
        day: "2024-03-03",
        request: b"POST /deposits?collection=maps&class=y1&accession=A-1&closed=2024-02-29 HTTP/1.1\r\nDepot-Caller: anna\r\nContent-Length: 210\r\n\r\nBAGSET 1\nFILE 9 54\nbagit.txtBagIt-Version: 1.0\nTag-File-Character-Encoding: UTF-8\n\nFILE 6 3\ndata/aabc\nFILE 19 73\nmanifest-sha256.txtba7816bf8f01cfea414140de5dae2223b00361a396177a9cb410ff61f20015ad  data/a\n\nEND\n",
        answer: DEPOSIT_1,
    },
    Case {
        day: "2024-03-03",
        request: b"GET /deposits/1/holds HTTP/1.1\r\nDepot-Caller: anna\r\n\r\n",
        answer: b"HTTP/1.1 200 OK\r\nContent-Type: application/json\r\nContent-Length: 75\r\nConnection: close\r\n\r\n{\"holds\":[{\"hold\":1,\"matter\":\"Case 7\",\"on\":\"class\",\"placed\":\"2024-03-02\"}]}",
    },
    Case {
        day: "2024-03-04",
        request: b"POST /holds HTTP/1.1\r\nDepot-Caller: anna\r\nContent-Length: 39\r\n\r\n{\"collection\":\"maps\",\"matter\":\"Case 7\"}",
        answer: HOLD_2,
    },
    Case {
        day: "2024-03-04",
        request: b"GET /deposits/1/holds HTTP/1.1\r\nDepot-Caller: anna\r\n\r\n",
        answer: b"HTTP/1.1 200 OK\r\nContent-Type: application/json\r\nContent-Length: 144\r\nConnection: close\r\n\r\n{\"holds\":[{\"hold\":1,\"matter\":\"Case 7\",\"on\":\"class\",\"placed\":\"2024-03-02\"},{\"hold\":2,\"matter\":\"Case 7\",\"on\":\"collection\",\"placed\":\"2024-03-04\"}]}",
    },
    Case {
        day: "2024-03-05",
        request: b"POST /deposits?collection=maps&class=y10&accession=A-2&closed=2024-02-29 HTTP/1.1\r\nDepot-Caller: anna\r\nContent-Length: 210\r\n\r\nBAGSET 1\nFILE 9 54\nbagit.txtBagIt-Version: 1.0\nTag-File-Character-Encoding: UTF-8\n\nFILE 6 3\ndata/aabc\nFILE 19 73\nmanifest-sha256.txtba7816bf8f01cfea414140de5dae2223b00361a396177a9cb410ff61f20015ad  data/a\n\nEND\n",
        answer: DEPOSIT_2,
    },
    Case {
        day: "2024-03-05",
        request: b"GET /deposits/2/holds HTTP/1.1\r\nDepot-Caller: anna\r\n\r\n",
        answer: b"HTTP/1.1 200 OK\r\nContent-Type: application/json\r\nContent-Length: 80\r\nConnection: close\r\n\r\n{\"holds\":[{\"hold\":2,\"matter\":\"Case 7\",\"on\":\"collection\",\"placed\":\"2024-03-04\"}]}",
    },
    Case {
        day: "2024-03-05",
        request: b"POST /deposits?collection=tax&class=y1&accession=A-3&closed=2024-02-29 HTTP/1.1\r\nDepot-Caller: anna\r\nContent-Length: 210\r\n\r\nBAGSET 1\nFILE 9 54\nbagit.txtBagIt-Version: 1.0\nTag-File-Character-Encoding: UTF-8\n\nFILE 6 3\ndata/aabc\nFILE 19 73\nmanifest-sha256.txtba7816bf8f01cfea414140de5dae2223b00361a396177a9cb410ff61f20015ad  data/a\n\nEND\n",
        answer: DEPOSIT_3,
    },
    Case {
        day: "2024-03-05",
        request: b"GET /deposits/3/holds HTTP/1.1\r\nDepot-Caller: anna\r\n\r\n",
        answer: b"HTTP/1.1 200 OK\r\nContent-Type: application/json\r\nContent-Length: 75\r\nConnection: close\r\n\r\n{\"holds\":[{\"hold\":1,\"matter\":\"Case 7\",\"on\":\"class\",\"placed\":\"2024-03-02\"}]}",
    },
    Case {
        day: "2030-01-01",
        request: b"GET /due HTTP/1.1\r\nDepot-Caller: anna\r\n\r\n",
        answer: b"HTTP/1.1 200 OK\r\nContent-Type: application/json\r\nContent-Length: 34\r\nConnection: close\r\n\r\n{\"day\":\"2030-01-01\",\"deposits\":[]}",
    },
    Case {
        day: "2030-01-01",
        request: b"DELETE /deposits/1 HTTP/1.1\r\nDepot-Caller: anna\r\n\r\n",
        answer: HELD_1,
    },
    Case {
        day: "2030-01-02",
        request: b"DELETE /holds/1 HTTP/1.1\r\nDepot-Caller: carl\r\n\r\n",
        answer: DENIED,
    },
    Case {
        day: "2030-01-02",
        request: b"DELETE /holds/1 HTTP/1.1\r\nDepot-Caller: anna\r\n\r\n",
        answer: b"HTTP/1.1 200 OK\r\nContent-Type: application/json\r\nContent-Length: 34\r\nConnection: close\r\n\r\n{\"hold\":1,\"released\":\"2030-01-02\"}",
    },
    Case {
        day: "2030-01-02",
        request: b"DELETE /deposits/1 HTTP/1.1\r\nDepot-Caller: anna\r\n\r\n",
        answer: b"HTTP/1.1 409 Conflict\r\nContent-Type: application/json\r\nContent-Length: 25\r\nConnection: close\r\n\r\n{\"error\":\"Held\",\"hold\":2}",
    },
    Case {
        day: "2030-01-02",
        request: b"GET /deposits/1/holds HTTP/1.1\r\nDepot-Caller: anna\r\n\r\n",
        answer: b"HTTP/1.1 200 OK\r\nContent-Type: application/json\r\nContent-Length: 80\r\nConnection: close\r\n\r\n{\"holds\":[{\"hold\":2,\"matter\":\"Case 7\",\"on\":\"collection\",\"placed\":\"2024-03-04\"}]}",
    },
    Case {
        day: "2030-01-02",
        request: b"GET /deposits/3/holds HTTP/1.1\r\nDepot-Caller: anna\r\n\r\n",
        answer: NO_HOLDS,
    },
    Case {
        day: "2030-01-03",
        request: b"DELETE /holds/1 HTTP/1.1\r\nDepot-Caller: anna\r\n\r\n",
        answer: b"HTTP/1.1 409 Conflict\r\nContent-Type: application/json\r\nContent-Length: 39\r\nConnection: close\r\n\r\n{\"day\":\"2030-01-02\",\"error\":\"Released\"}",
    },
    Case {
        day: "2030-01-03",
        request: b"DELETE /holds/2 HTTP/1.1\r\nDepot-Caller: anna\r\n\r\n",
        answer: b"HTTP/1.1 200 OK\r\nContent-Type: application/json\r\nContent-Length: 34\r\nConnection: close\r\n\r\n{\"hold\":2,\"released\":\"2030-01-03\"}",
    },
    Case {
        day: "2030-01-03",
        request: b"DELETE /deposits/1 HTTP/1.1\r\nDepot-Caller: anna\r\n\r\n",
        answer: b"HTTP/1.1 200 OK\r\nContent-Type: application/json\r\nContent-Length: 34\r\nConnection: close\r\n\r\n{\"day\":\"2030-01-03\",\"destroyed\":1}",
    },
    Case {
        day: "2030-01-04",
        request: b"POST /holds HTTP/1.1\r\nDepot-Caller: anna\r\nContent-Length: 33\r\n\r\n{\"matter\":\"Case 7\",\"class\":\"y10\"}",
        answer: HOLD_3,
    },
    Case {
        day: "2030-01-04",
        request: b"GET /deposits/2/holds HTTP/1.1\r\nDepot-Caller: anna\r\n\r\n",
        answer: b"HTTP/1.1 200 OK\r\nContent-Type: application/json\r\nContent-Length: 75\r\nConnection: close\r\n\r\n{\"holds\":[{\"hold\":3,\"matter\":\"Case 7\",\"on\":\"class\",\"placed\":\"2030-01-04\"}]}",
    },
    Case {
        day: "2034-02-28",
        request: b"DELETE /deposits/2 HTTP/1.1\r\nDepot-Caller: anna\r\n\r\n",
        answer: b"HTTP/1.1 409 Conflict\r\nContent-Type: application/json\r\nContent-Length: 25\r\nConnection: close\r\n\r\n{\"error\":\"Held\",\"hold\":3}",
    },
    Case {
        day: "2030-01-04",
        request: b"POST /holds HTTP/1.1\r\nDepot-Caller: anna\r\nContent-Length: 31\r\n\r\n{\"class\":\"z\",\"matter\":\"Case 7\"}",
        answer: NO_CLASS,
    },
    Case {
        day: "2030-01-04",
        request: b"POST /holds HTTP/1.1\r\nDepot-Caller: carl\r\nContent-Length: 31\r\n\r\n{\"class\":\"z\",\"matter\":\"Case 7\"}",
        answer: NO_CLASS,
    },
    Case {
        day: "2030-01-04",
        request: b"POST /holds HTTP/1.1\r\nDepot-Caller: carl\r\nContent-Length: 32\r\n\r\n{\"class\":\"y1\",\"matter\":\"Case 7\"}",
        answer: DENIED,
    },
    Case {
        day: "2030-01-04",
        request: b"POST /holds HTTP/1.1\r\nDepot-Caller: anna\r\nContent-Length: 52\r\n\r\n{\"class\":\"y1\",\"collection\":\"maps\",\"matter\":\"Case 7\"}",
        answer: BAD_BODY,
    },
];

/// SQL that alters a content which deposits 2 and 3 share, SQL that takes this back, and what audits answer in between.
struct Alteration {
    alters: &'static str,
    restores: &'static str,
    audits: &'static [Case],
}

/// Other bytes, as many.
const OTHER_BYTES: Alteration = Alteration {
    alters: "UPDATE content SET bytes = x'616264' WHERE bytes = x'616263'",
    restores: "UPDATE content SET bytes = x'616263' WHERE bytes = x'616264'",
    audits: &[
        Case {
            day: "2030-01-04",
            request: b"GET /deposits/2/audit HTTP/1.1\r\nDepot-Caller: anna\r\n\r\n",
            answer: b"HTTP/1.1 200 OK\r\nContent-Type: application/json\r\nContent-Length: 68\r\nConnection: close\r\n\r\n{\"deposit\":2,\"fault\":\"B17 manifest-sha256.txt data/a\",\"valid\":false}",
        },
        Case {
            day: "2030-01-04",
            request: b"GET /deposits/3/audit HTTP/1.1\r\nDepot-Caller: anna\r\n\r\n",
            answer: b"HTTP/1.1 200 OK\r\nContent-Type: application/json\r\nContent-Length: 68\r\nConnection: close\r\n\r\n{\"deposit\":3,\"fault\":\"B17 manifest-sha256.txt data/a\",\"valid\":false}",
        },
    ],
};

/// Other bytes, none, and another mark.
static ALTERATIONS: [Alteration; 3] = [
    OTHER_BYTES,
    Alteration {
        alters: "UPDATE content SET bytes = x'' WHERE bytes = x'616263'",
        restores: "UPDATE content SET bytes = x'616263' WHERE bytes = x''",
        ..OTHER_BYTES
    },
    Alteration {
        alters: "UPDATE content SET mark = x'0000000000000000000000000000000000000000000000000000000000000000' WHERE bytes = x'616263'",
        restores: "UPDATE content SET mark = x'ba7816bf8f01cfea414140de5dae2223b00361a396177a9cb410ff61f20015ad' WHERE bytes = x'616263'",
        audits: &[
            Case {
                day: "2030-01-04",
                request: b"GET /deposits/2/audit HTTP/1.1\r\nDepot-Caller: anna\r\n\r\n",
                answer: b"HTTP/1.1 200 OK\r\nContent-Type: application/json\r\nContent-Length: 76\r\nConnection: close\r\n\r\n{\"bytes\":3,\"deposit\":2,\"files\":1,\"manifests\":1,\"valid\":true,\"version\":\"1.0\"}",
            },
            Case {
                day: "2030-01-04",
                request: b"GET /deposits/3/audit HTTP/1.1\r\nDepot-Caller: anna\r\n\r\n",
                answer: b"HTTP/1.1 200 OK\r\nContent-Type: application/json\r\nContent-Length: 76\r\nConnection: close\r\n\r\n{\"bytes\":3,\"deposit\":3,\"files\":1,\"manifests\":1,\"valid\":true,\"version\":\"1.0\"}",
            },
        ],
    },
];

/// What is downloaded of deposits 2 and 3 then. The last file has a content that isn't altered.
static DOWNLOADS: [Case; 5] = [
    Case {
        day: "2030-01-04",
        request: b"GET /deposits/2/files/data/a HTTP/1.1\r\nDepot-Caller: anna\r\n\r\n",
        answer: STORE_FAILED,
    },
    Case {
        day: "2030-01-04",
        request: b"GET /deposits/2/bag HTTP/1.1\r\nDepot-Caller: anna\r\n\r\n",
        answer: STORE_FAILED,
    },
    Case {
        day: "2030-01-04",
        request: b"GET /deposits/3/files/data/a HTTP/1.1\r\nDepot-Caller: anna\r\n\r\n",
        answer: STORE_FAILED,
    },
    Case {
        day: "2030-01-04",
        request: b"GET /deposits/3/bag HTTP/1.1\r\nDepot-Caller: anna\r\n\r\n",
        answer: STORE_FAILED,
    },
    Case {
        day: "2030-01-04",
        request: b"GET /deposits/2/files/bagit.txt HTTP/1.1\r\nDepot-Caller: anna\r\n\r\n",
        answer: b"HTTP/1.1 200 OK\r\nContent-Type: application/octet-stream\r\nContent-Length: 54\r\nConnection: close\r\n\r\nBagIt-Version: 1.0\nTag-File-Character-Encoding: UTF-8\n",
    },
];

/// A deposit that the first rule keeps from destruction on its last day, and not on the next. The days come in no
/// order: each answer takes the rules of its own day.
static RULES: [Case; 7] = [
    Case {
        day: "2024-03-01",
        request: b"POST /deposits?collection=tax&class=y10&accession=A-1&closed=2024-02-29 HTTP/1.1\r\nDepot-Caller: anna\r\nContent-Length: 210\r\n\r\nBAGSET 1\nFILE 9 54\nbagit.txtBagIt-Version: 1.0\nTag-File-Character-Encoding: UTF-8\n\nFILE 6 3\ndata/aabc\nFILE 19 73\nmanifest-sha256.txtba7816bf8f01cfea414140de5dae2223b00361a396177a9cb410ff61f20015ad  data/a\n\nEND\n",
        answer: DEPOSIT_1,
    },
    Case {
        day: "2024-03-01",
        request: b"PUT /classes/y10 HTTP/1.1\r\nDepot-Caller: anna\r\nContent-Length: 11\r\n\r\n{\"years\":0}",
        answer: b"HTTP/1.1 200 OK\r\nContent-Type: application/json\r\nContent-Length: 25\r\nConnection: close\r\n\r\n{\"class\":\"y10\",\"years\":0}",
    },
    Case {
        day: "2024-12-31",
        request: b"GET /due HTTP/1.1\r\nDepot-Caller: anna\r\n\r\n",
        answer: b"HTTP/1.1 200 OK\r\nContent-Type: application/json\r\nContent-Length: 34\r\nConnection: close\r\n\r\n{\"day\":\"2024-12-31\",\"deposits\":[]}",
    },
    Case {
        day: "2025-01-01",
        request: b"GET /due HTTP/1.1\r\nDepot-Caller: anna\r\n\r\n",
        answer: b"HTTP/1.1 200 OK\r\nContent-Type: application/json\r\nContent-Length: 35\r\nConnection: close\r\n\r\n{\"day\":\"2025-01-01\",\"deposits\":[1]}",
    },
    Case {
        day: "2024-12-31",
        request: b"GET /due HTTP/1.1\r\nDepot-Caller: anna\r\n\r\n",
        answer: b"HTTP/1.1 200 OK\r\nContent-Type: application/json\r\nContent-Length: 34\r\nConnection: close\r\n\r\n{\"day\":\"2024-12-31\",\"deposits\":[]}",
    },
    Case {
        day: "2024-12-31",
        request: b"DELETE /deposits/1 HTTP/1.1\r\nDepot-Caller: anna\r\n\r\n",
        answer: b"HTTP/1.1 403 Forbidden\r\nContent-Type: application/json\r\nContent-Length: 27\r\nConnection: close\r\n\r\n{\"error\":\"Denied\",\"rule\":1}",
    },
    Case {
        day: "2025-01-01",
        request: b"DELETE /deposits/1 HTTP/1.1\r\nDepot-Caller: anna\r\n\r\n",
        answer: b"HTTP/1.1 200 OK\r\nContent-Type: application/json\r\nContent-Length: 34\r\nConnection: close\r\n\r\n{\"day\":\"2025-01-01\",\"destroyed\":1}",
    },
];

/// Puts the cases to the office in turn. The reader fails after the last byte of each request.
fn take<S: Alter>(alloc: Global, office: &mut Office<S>, cases: &[Case]) -> Result<(), Fail> {
    for case in cases {
        let devices = Devices::narrow(case.request, u64::MAX);
        let (ended, written) = serve_request(alloc, office, case.day, case.request, devices)?;
        compare(alloc, &written, case.answer)?;
        if ended.is_err() {
            return Err("a request was not answered".into());
        }
    }
    Ok(())
}

/// A session with holds on classes.
pub(crate) fn take_holds<S: Alter>(alloc: Global, office: &mut Office<S>) -> Result<(), Fail> {
    take(alloc, office, &HOLDS)
}

/// Alters the content, puts the requests to the office, and takes the alteration back.
fn take_alteration<S: Alter + Drop>(
    alloc: Global,
    office: Office<S>,
    alteration: &Alteration,
) -> Result<Office<S>, Fail> {
    let mut office = altered(office, alteration.alters)?;
    take(alloc, &mut office, &DOWNLOADS)?;
    take(alloc, &mut office, alteration.audits)?;
    altered(office, alteration.restores)
}

/// Requests to the office after that session, at each alteration of a content. It is as before in the end.
pub(crate) fn take_altered<S: Alter + Drop>(
    alloc: Global,
    office: Office<S>,
) -> Result<Office<S>, Fail> {
    let mut office = office;
    for alteration in &ALTERATIONS {
        office = take_alteration(alloc, office, alteration)?;
    }
    Ok(office)
}

/// A session under a policy whose rules have days.
pub(crate) fn take_rules<S: Alter>(alloc: Global, office: &mut Office<S>) -> Result<(), Fail> {
    let policy = read_policy(alloc, POLICY_WITH_DAYS)?;
    if office.install(alloc, &policy).is_err() {
        return Err("the policy was not installed".into());
    }
    take(alloc, office, &RULES)
}
