//! Records of requests, replayed, worked out by hand from `docs/HTTP.md`.

use crate::desk::compare;
use http_desk::{Counted, FailAt, Portion, ReplayFault, ReplayStop, replay};
use office_engine::Office;
use sqlite::Alter;
use std::alloc::Global;
use std::test::Fail;

/// An input, what a replay of it comes to, and what it writes.
#[derive(Clone, Copy)]
struct Case {
    input: &'static [u8],
    /// The number of the records that are answered.
    records: u64,
    /// Whether bytes that aren't a record follow them.
    is_torn: bool,
    answers: &'static [u8],
}

/// A record of 71 bytes, twice.
const TWICE: &[u8] =
    b"REQ 2024-03-01 52\nGET /deposits/7/bag HTTP/1.1\r\nDepot-Caller: anna\r\n\r\n\nREQ 2024-03-01 52\nGET /deposits/7/bag HTTP/1.1\r\nDepot-Caller: anna\r\n\r\n\n";

/// The record of its answer, of 141 bytes, twice.
const TWO_ANSWERS: &[u8] =
    b"ANS 132\nHTTP/1.1 404 Not Found\r\nContent-Type: application/json\r\nContent-Length: 35\r\nConnection: close\r\n\r\n{\"error\":\"NoSuch\",\"what\":\"deposit\"}\nANS 132\nHTTP/1.1 404 Not Found\r\nContent-Type: application/json\r\nContent-Length: 35\r\nConnection: close\r\n\r\n{\"error\":\"NoSuch\",\"what\":\"deposit\"}\n";

/// The record of its answer, once.
const ONE_ANSWER: &[u8] =
    b"ANS 132\nHTTP/1.1 404 Not Found\r\nContent-Type: application/json\r\nContent-Length: 35\r\nConnection: close\r\n\r\n{\"error\":\"NoSuch\",\"what\":\"deposit\"}\n";

/// The record of the answer to a request that ended too early.
const TRUNCATED: &[u8] =
    b"ANS 120\nHTTP/1.1 400 Bad Request\r\nContent-Type: application/json\r\nContent-Length: 21\r\nConnection: close\r\n\r\n{\"error\":\"Truncated\"}\n";

static CASES: [Case; 18] = [
    Case {
        input: b"",
        records: 0,
        is_torn: false,
        answers: b"",
    },
    Case {
        input: b"REQ 2024-03-01 48\nGET /deposits/7 HTTP/1.1\r\nDepot-Caller: anna\r\n\r\n\n",
        records: 1,
        is_torn: false,
        answers: ONE_ANSWER,
    },
    Case {
        input: TWICE,
        records: 2,
        is_torn: false,
        answers: TWO_ANSWERS,
    },
    Case {
        input: b"REQ 2024-03-01 52\nGET /deposits/7/bag HTTP/1.1\r\nDepot-Caller: anna\r\n\r\n\nREQ 2024-03-01 52\nGET /deposits/7/bag HTTP/1.1\r\nDepot-Caller: anna\r\n\r\n",
        records: 1,
        is_torn: true,
        answers: ONE_ANSWER,
    },
    Case {
        input: b"REQ 2024-03-01 52\nGET /deposits/7/bag HTTP/1.1\r\nDepot-Caller: anna\r\n\r\n\nREQ 2024-03-01 54\nPUT /collections/maps HTTP/1.1\r\nDepot-Caller: carl\r\n\r\n\nREQ 2024-03-02 54\nPUT /collections/maps HTTP/1.1\r\nDepot-Caller: anna\r\n\r\n\n",
        records: 3,
        is_torn: false,
        answers: b"ANS 132\nHTTP/1.1 404 Not Found\r\nContent-Type: application/json\r\nContent-Length: 35\r\nConnection: close\r\n\r\n{\"error\":\"NoSuch\",\"what\":\"deposit\"}\nANS 132\nHTTP/1.1 403 Forbidden\r\nContent-Type: application/json\r\nContent-Length: 35\r\nConnection: close\r\n\r\n{\"error\":\"Denied\",\"rule\":\"default\"}\nANS 111\nHTTP/1.1 200 OK\r\nContent-Type: application/json\r\nContent-Length: 21\r\nConnection: close\r\n\r\n{\"collection\":\"maps\"}\n",
    },
    Case {
        input: b"REQ 2024-03-01 0\n\n",
        records: 1,
        is_torn: false,
        answers: TRUNCATED,
    },
    Case {
        input: b"REQ 2024-03-01 46\nGET /deposits/7 HTTP/1.1\r\nDepot-Caller: anna\r\n\n",
        records: 1,
        is_torn: false,
        answers: TRUNCATED,
    },
    Case {
        input: b"REQ 2024-03-01 0\nx",
        records: 0,
        is_torn: true,
        answers: b"",
    },
    Case {
        input: b"REQ 2024-02-30 0\n\n",
        records: 0,
        is_torn: true,
        answers: b"",
    },
    Case {
        input: b"REQ 2024-03-01 00\n\n",
        records: 0,
        is_torn: true,
        answers: b"",
    },
    Case {
        input: b"REQ 2024-03-01 16800001\n",
        records: 0,
        is_torn: true,
        answers: b"",
    },
    Case {
        input: b"REQ 2024-03-01 16800000\n",
        records: 0,
        is_torn: true,
        answers: b"",
    },
    Case {
        input: b"REQ 2024-03-01 52\nGET /deposits/7/bag HTTP/1.1\r\nDepot-Caller: anna\r\n\r\n\nx",
        records: 1,
        is_torn: true,
        answers: ONE_ANSWER,
    },
    Case {
        input: b"REQ 2024-03-01 52\nGET /deposits/7/bag HTTP/1.1\r\nDepot-Caller: anna\r\n\r\n\n\nREQ 2024-03-01 52\nGET /deposits/7/bag HTTP/1.1\r\nDepot-Caller: anna\r\n\r\n\n",
        records: 1,
        is_torn: true,
        answers: ONE_ANSWER,
    },
    Case {
        input: b"REQ 2024-03-01 48\nGET /deposits/7 HTTP/1.1\r\nDepot-Caller: anna\r\n\r\n\nREQ 2024-03-01 48\nGET /deposits/7 HTTP/1.1\r\nDepot-Caller: anna\r\n\r\n",
        records: 1,
        is_torn: true,
        answers: ONE_ANSWER,
    },
    Case {
        input: b"REQ 2024-03-01 336\nPOST /deposits?collection=maps&class=y10&accession=A-1&closed=2024-02-29 HTTP/1.1\r\nDepot-Caller: anna\r\nContent-Length: 210\r\n\r\nBAGSET 1\nFILE 9 54\nbagit.txtBagIt-Version: 1.0\nTag-File-Character-Encoding: UTF-8\n\nFILE 6 3\ndata/aabc\nFILE 19 73\nmanifest-sha256.txtba7816bf8f01cfea414140de5dae2223b00361a396177a9cb410ff61f20015ad  data/a\n\nEND\n\nREQ 2024-03-01 335\nPOST /deposits?collection=tax&class=y10&accession=A-2&closed=2024-02-29 HTTP/1.1\r\nDepot-Caller: anna\r\nContent-Length: 210\r\n\r\nBAGSET 1\nFILE 9 54\nbagit.txtBagIt-Version: 1.0\nTag-File-Character-Encoding: UTF-8\n\nFILE 6 3\ndata/aabc\nFILE 19 73\nmanifest-sha256.txtba7816bf8f01cfea414140de5dae2223b00361a396177a9cb410ff61f20015ad  data/a\n\nEND\n\nREQ 2024-03-01 335\nPOST /deposits?collection=maps&class=y1&accession=A-3&closed=2024-02-29 HTTP/1.1\r\nDepot-Caller: anna\r\nContent-Length: 210\r\n\r\nBAGSET 1\nFILE 9 54\nbagit.txtBagIt-Version: 1.0\nTag-File-Character-Encoding: UTF-8\n\nFILE 6 3\ndata/aabc\nFILE 19 73\nmanifest-sha256.txtba7816bf8f01cfea414140de5dae2223b00361a396177a9cb410ff61f20015ad  data/a\n\nEND\n\n",
        records: 3,
        is_torn: false,
        answers: b"ANS 108\nHTTP/1.1 201 Created\r\nContent-Type: application/json\r\nContent-Length: 13\r\nConnection: close\r\n\r\n{\"deposit\":1}\nANS 108\nHTTP/1.1 201 Created\r\nContent-Type: application/json\r\nContent-Length: 13\r\nConnection: close\r\n\r\n{\"deposit\":2}\nANS 108\nHTTP/1.1 201 Created\r\nContent-Type: application/json\r\nContent-Length: 13\r\nConnection: close\r\n\r\n{\"deposit\":3}\n",
    },
    Case {
        input: b"REQ 2024-03-01 46\nGET /deposits HTTP/1.1\r\nDepot-Caller: carl\r\n\r\n\n",
        records: 1,
        is_torn: false,
        answers: b"ANS 408\nHTTP/1.1 200 OK\r\nContent-Type: application/json\r\nContent-Length: 317\r\nConnection: close\r\n\r\n{\"deposits\":[{\"accession\":\"A-1\",\"bytes\":3,\"class\":\"y10\",\"closed\":\"2024-02-29\",\"collection\":\"maps\",\"deposit\":1,\"deposited\":\"2024-03-01\",\"due\":\"2034-02-28\",\"files\":1},{\"accession\":\"A-2\",\"bytes\":3,\"class\":\"y10\",\"closed\":\"2024-02-29\",\"collection\":\"tax\",\"deposit\":2,\"deposited\":\"2024-03-01\",\"due\":\"2034-02-28\",\"files\":1}]}\n",
    },
    Case {
        input: b"REQ 2024-03-05 41\nGET /due HTTP/1.1\r\nDepot-Caller: anna\r\n\r\n\nREQ 2024-03-01 80\nPUT /classes/y10 HTTP/1.1\r\nDepot-Caller: anna\r\nContent-Length: 11\r\n\r\n{\"years\":0}\nREQ 2024-03-05 41\nGET /due HTTP/1.1\r\nDepot-Caller: anna\r\n\r\n\n",
        records: 3,
        is_torn: false,
        answers: b"ANS 124\nHTTP/1.1 200 OK\r\nContent-Type: application/json\r\nContent-Length: 34\r\nConnection: close\r\n\r\n{\"day\":\"2024-03-05\",\"deposits\":[]}\nANS 115\nHTTP/1.1 200 OK\r\nContent-Type: application/json\r\nContent-Length: 25\r\nConnection: close\r\n\r\n{\"class\":\"y10\",\"years\":0}\nANS 125\nHTTP/1.1 200 OK\r\nContent-Type: application/json\r\nContent-Length: 35\r\nConnection: close\r\n\r\n{\"day\":\"2024-03-05\",\"deposits\":[1]}\n",
    },
];

/// A reader and a writer of one byte a call, each of which works for this number of calls.
#[derive(Clone, Copy)]
struct Calls {
    reads: u64,
    writes: u64,
}

/// Replays the input. Fails where that comes to something else, or writes something else than the
/// this number of bytes of the first of these answers.
fn replay_as<S: Alter>(
    alloc: Global,
    office: &mut Office<S>,
    input: &[u8],
    calls: Calls,
    ends: Result<u64, ReplayFault>,
    answers: &[u8],
    length: usize,
) -> Result<(), Fail> {
    let mut reader = Counted::new(FailAt::new(input, Portion::OneByte, calls.reads));
    let mut writer = Counted::new(FailAt::new(Vec::new(alloc), Portion::OneByte, calls.writes));
    let ended = replay(alloc, office, &mut reader, &mut writer);
    let wanted = answers.get(..length).ok_or("few answers")?;
    compare(alloc, &writer.device().memory, wanted)?;
    if ended != ends {
        return Err(Fail::new("a replay ended otherwise"));
    }
    Ok(())
}

/// Replays of whole and of torn records.
fn take_cases<S: Alter>(alloc: Global, office: &mut Office<S>) -> Result<(), Fail> {
    let calls = Calls {
        reads: u64::MAX,
        writes: u64::MAX,
    };
    for case in &CASES {
        let torn = ReplayFault {
            stop: ReplayStop::BadRecord {
                index: case.records.saturating_add(1),
            },
            done: case.records,
            answered: case.records,
        };
        let ends = if case.is_torn {
            Err(torn)
        } else {
            Ok(case.records)
        };
        replay_as(
            alloc,
            office,
            case.input,
            calls,
            ends,
            case.answers,
            case.answers.len(),
        )?;
    }
    Ok(())
}

/// A reader that fails at each of its calls: what was read whole before is answered, and no more. A
/// writer that does: what it took before is a beginning of the answers.
fn take_failures<S: Alter>(alloc: Global, office: &mut Office<S>) -> Result<(), Fail> {
    for reads in 0..143_u64 {
        let calls = Calls {
            reads,
            writes: u64::MAX,
        };
        let whole = reads / 71;
        let fault = ReplayFault {
            stop: ReplayStop::Read,
            done: whole,
            answered: whole,
        };
        let length = (whole * 141) as usize;
        replay_as(alloc, office, TWICE, calls, Err(fault), TWO_ANSWERS, length)?;
    }
    for writes in 0..282_u64 {
        let calls = Calls {
            reads: u64::MAX,
            writes,
        };
        let whole = writes / 141;
        let fault = ReplayFault {
            stop: ReplayStop::Write,
            done: whole + 1,
            answered: whole,
        };
        let length = writes as usize;
        replay_as(alloc, office, TWICE, calls, Err(fault), TWO_ANSWERS, length)?;
    }
    Ok(())
}

/// Replays of whole and of torn records, and a reader and a writer that fail at each of their
/// calls. With one call more than the last that a replay stops at, the reader tells its end, and
/// the writer has all answers.
pub(crate) fn take_records<S: Alter>(alloc: Global, office: &mut Office<S>) -> Result<(), Fail> {
    take_cases(alloc, office)?;
    take_failures(alloc, office)?;
    let calls = Calls {
        reads: 143,
        writes: 282,
    };
    replay_as(alloc, office, TWICE, calls, Ok(2), TWO_ANSWERS, 282)
}
