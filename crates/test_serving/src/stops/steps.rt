//! A session with an office, worked out by hand: its steps, the rows of the tables in between, and
//! a session that goes on.

use crate::answers::{
    DEPOSIT_1, DEPOSIT_2, DEPOSIT_3, HOLD_1, HOLD_2, HOLD_3, MAPS, STORE_FAILED, Y1,
};
use crate::desk::{Devices, compare, serve_request};
use http_desk::Portion;
use office_core::read_policy;
use office_engine::Office;
use office_tables::TableFault;
use sqlite::Alter;
use std::alloc::Global;
use std::test::Fail;
use test_bags::{BAG, BAG_0_97};
use test_sessions::{TestRequest, answer_in_words};

/// How the requests come.
#[derive(Clone, Copy)]
pub(crate) enum Way {
    /// The office is called.
    Called,
    /// The desk hears their bytes.
    Sent,
}

/// A request of `anna`, which is accepted: asked of the office, with the answer in words, and as
/// bytes that come to the desk, with the bytes that answer them.
struct Step {
    day: &'static str,
    asked: TestRequest,
    told: &'static [u8],
    request: &'static [u8],
    answer: &'static [u8],
}

/// The session installs these policies, one in the place of the other, and then takes its steps. Under the first `anna` may
/// do all, and to `carl` a rule denies to define a class; the rest is denied by default. Under the second, whose rules have
/// days, `anna` may do all from the first day of the session to the last, but destroy nothing before the last.
static POLICIES: [&str; 2] = [
    "version = 1\n\n[callers]\nanna = \"archivist\"\ncarl = \"clerk\"\n\n[[rule]]\neffect = \"allow\"\nrole = \"archivist\"\naction = \"*\"\ncollection = \"*\"\nclass = \"*\"\n\n[[rule]]\neffect = \"deny\"\nrole = \"clerk\"\naction = \"class\"\ncollection = \"*\"\nclass = \"*\"\n",
    "version = 2\n\n[callers]\nanna = \"archivist\"\ncarl = \"clerk\"\n\n[[rule]]\neffect = \"deny\"\nrole = \"archivist\"\naction = \"dispose\"\ncollection = \"*\"\nclass = \"*\"\nlast = \"2029-12-31\"\n\n[[rule]]\neffect = \"allow\"\nrole = \"archivist\"\naction = \"*\"\ncollection = \"*\"\nclass = \"*\"\nfirst = \"2024-03-01\"\nlast = \"2030-01-01\"\n\n[[rule]]\neffect = \"deny\"\nrole = \"clerk\"\naction = \"class\"\ncollection = \"*\"\nclass = \"*\"\n",
];

/// Bags with two files alike, under a class that is revised, and holds of one, of their collection and of their class; the
/// last deposit comes later than those.
static STEPS: [Step; 13] = [
    Step {
        day: "2024-03-01",
        asked: TestRequest::Collection("maps"),
        told: b"collection maps",
        request: b"PUT /collections/maps HTTP/1.1\r\nDepot-Caller: anna\r\n\r\n",
        answer: MAPS,
    },
    Step {
        day: "2024-03-01",
        asked: TestRequest::Class("y1", 1),
        told: b"class y1 1",
        request: b"PUT /classes/y1 HTTP/1.1\r\nDepot-Caller: anna\r\nContent-Length: 11\r\n\r\n{\"years\":1}",
        answer: Y1,
    },
    Step {
        day: "2024-03-01",
        asked: TestRequest::Deposit {
            collection: "maps",
            class: "y1",
            accession: "A-1",
            closed: "2024-02-29",
            bag: BAG,
        },
        told: b"deposit 1",
        request: b"POST /deposits?collection=maps&class=y1&accession=A-1&closed=2024-02-29 HTTP/1.1\r\nDepot-Caller: anna\r\nContent-Length: 210\r\n\r\nBAGSET 1\nFILE 9 54\nbagit.txtBagIt-Version: 1.0\nTag-File-Character-Encoding: UTF-8\n\nFILE 6 3\ndata/aabc\nFILE 19 73\nmanifest-sha256.txtba7816bf8f01cfea414140de5dae2223b00361a396177a9cb410ff61f20015ad  data/a\n\nEND\n",
        answer: DEPOSIT_1,
    },
    Step {
        day: "2024-03-01",
        asked: TestRequest::Deposit {
            collection: "maps",
            class: "y1",
            accession: "A-2",
            closed: "2024-02-29",
            bag: BAG_0_97,
        },
        told: b"deposit 2",
        request: b"POST /deposits?collection=maps&class=y1&accession=A-2&closed=2024-02-29 HTTP/1.1\r\nDepot-Caller: anna\r\nContent-Length: 211\r\n\r\nBAGSET 1\nFILE 9 55\nbagit.txtBagIt-Version: 0.97\nTag-File-Character-Encoding: UTF-8\n\nFILE 6 3\ndata/aabc\nFILE 19 73\nmanifest-sha256.txtba7816bf8f01cfea414140de5dae2223b00361a396177a9cb410ff61f20015ad  data/a\n\nEND\n",
        answer: DEPOSIT_2,
    },
    Step {
        day: "2024-03-02",
        asked: TestRequest::Class("y1", 2),
        told: b"class y1 2",
        request: b"PUT /classes/y1 HTTP/1.1\r\nDepot-Caller: anna\r\nContent-Length: 11\r\n\r\n{\"years\":2}",
        answer: b"HTTP/1.1 200 OK\r\nContent-Type: application/json\r\nContent-Length: 24\r\nConnection: close\r\n\r\n{\"class\":\"y1\",\"years\":2}",
    },
    Step {
        day: "2024-03-02",
        asked: TestRequest::HoldDeposit(1),
        told: b"hold 1",
        request: b"POST /holds HTTP/1.1\r\nDepot-Caller: anna\r\nContent-Length: 31\r\n\r\n{\"deposit\":1,\"matter\":\"Case 7\"}",
        answer: HOLD_1,
    },
    Step {
        day: "2024-03-02",
        asked: TestRequest::HoldCollection("maps"),
        told: b"hold 2",
        request: b"POST /holds HTTP/1.1\r\nDepot-Caller: anna\r\nContent-Length: 39\r\n\r\n{\"collection\":\"maps\",\"matter\":\"Case 7\"}",
        answer: HOLD_2,
    },
    Step {
        day: "2024-03-02",
        asked: TestRequest::HoldClass("y1"),
        told: b"hold 3",
        request: b"POST /holds HTTP/1.1\r\nDepot-Caller: anna\r\nContent-Length: 32\r\n\r\n{\"class\":\"y1\",\"matter\":\"Case 7\"}",
        answer: HOLD_3,
    },
    Step {
        day: "2024-03-05",
        asked: TestRequest::Deposit {
            collection: "maps",
            class: "y1",
            accession: "A-3",
            closed: "2024-02-29",
            bag: BAG_0_97,
        },
        told: b"deposit 3",
        request: b"POST /deposits?collection=maps&class=y1&accession=A-3&closed=2024-02-29 HTTP/1.1\r\nDepot-Caller: anna\r\nContent-Length: 211\r\n\r\nBAGSET 1\nFILE 9 55\nbagit.txtBagIt-Version: 0.97\nTag-File-Character-Encoding: UTF-8\n\nFILE 6 3\ndata/aabc\nFILE 19 73\nmanifest-sha256.txtba7816bf8f01cfea414140de5dae2223b00361a396177a9cb410ff61f20015ad  data/a\n\nEND\n",
        answer: DEPOSIT_3,
    },
    Step {
        day: "2024-03-05",
        asked: TestRequest::Release(2),
        told: b"released 2 2024-03-05",
        request: b"DELETE /holds/2 HTTP/1.1\r\nDepot-Caller: anna\r\n\r\n",
        answer: b"HTTP/1.1 200 OK\r\nContent-Type: application/json\r\nContent-Length: 34\r\nConnection: close\r\n\r\n{\"hold\":2,\"released\":\"2024-03-05\"}",
    },
    Step {
        day: "2024-03-05",
        asked: TestRequest::Release(1),
        told: b"released 1 2024-03-05",
        request: b"DELETE /holds/1 HTTP/1.1\r\nDepot-Caller: anna\r\n\r\n",
        answer: b"HTTP/1.1 200 OK\r\nContent-Type: application/json\r\nContent-Length: 34\r\nConnection: close\r\n\r\n{\"hold\":1,\"released\":\"2024-03-05\"}",
    },
    Step {
        day: "2024-03-05",
        asked: TestRequest::Release(3),
        told: b"released 3 2024-03-05",
        request: b"DELETE /holds/3 HTTP/1.1\r\nDepot-Caller: anna\r\n\r\n",
        answer: b"HTTP/1.1 200 OK\r\nContent-Type: application/json\r\nContent-Length: 34\r\nConnection: close\r\n\r\n{\"hold\":3,\"released\":\"2024-03-05\"}",
    },
    Step {
        day: "2030-01-01",
        asked: TestRequest::Dispose(1),
        told: b"destroyed 1 2030-01-01",
        request: b"DELETE /deposits/1 HTTP/1.1\r\nDepot-Caller: anna\r\n\r\n",
        answer: b"HTTP/1.1 200 OK\r\nContent-Type: application/json\r\nContent-Length: 34\r\nConnection: close\r\n\r\n{\"day\":\"2030-01-01\",\"destroyed\":1}",
    },
];

/// How far the session goes: both policies are installed, and each step is taken.
pub(crate) const WHOLE: usize = 15;

/// What `held_rows` shows of the tables before the session, after each of its policies and after each step.
pub(crate) static TABLES: [&[u8]; 16] = [
    b"1|5|1000000|1000000\n--\n--\n--\n--\n--\n--\n--\n--\n--\n",
    b"1|5|1000000|1000000\n--\nanna|archivist\ncarl|clerk\n--\n1|1|archivist|*|*|*|-25567|2859848\n2|0|clerk|class|*|*|-25567|2859848\n--\n--\n--\n--\n--\n--\n--\n",
    b"1|5|1000000|1000000\n--\nanna|archivist\ncarl|clerk\n--\n1|0|archivist|dispose|*|*|-25567|21914\n2|1|archivist|*|*|*|19783|21915\n3|0|clerk|class|*|*|-25567|2859848\n--\n--\n--\n--\n--\n--\n--\n",
    b"1|5|1000000|1000000\n--\nanna|archivist\ncarl|clerk\n--\n1|0|archivist|dispose|*|*|-25567|21914\n2|1|archivist|*|*|*|19783|21915\n3|0|clerk|class|*|*|-25567|2859848\n--\n--\nmaps\n--\n--\n--\n--\n--\n",
    b"1|5|1000000|1000000\n--\nanna|archivist\ncarl|clerk\n--\n1|0|archivist|dispose|*|*|-25567|21914\n2|1|archivist|*|*|*|19783|21915\n3|0|clerk|class|*|*|-25567|2859848\n--\ny1|1\n--\nmaps\n--\n--\n--\n--\n--\n",
    b"1|5|1000000|1000000\n--\nanna|archivist\ncarl|clerk\n--\n1|0|archivist|dispose|*|*|-25567|21914\n2|1|archivist|*|*|*|19783|21915\n3|0|clerk|class|*|*|-25567|2859848\n--\ny1|1\n--\nmaps\n--\n1|A-1|maps|y1|19782|19783|1|3||20147|0\n--\n1|bagit.txt|1|BagIt-Version: 1.0\nTag-File-Character-Encoding: UTF-8\n\n1|data/a|2|abc\n1|manifest-sha256.txt|3|ba7816bf8f01cfea414140de5dae2223b00361a396177a9cb410ff61f20015ad  data/a\n\n--\n--\n1|1712ECFB074BF29C4188AD3421032509159A09739FD604F8FE57038B4DDEFCC9|54\n2|BA7816BF8F01CFEA414140DE5DAE2223B00361A396177A9CB410FF61F20015AD|3\n3|229B690BB74C455DCF323FBF029F56AF1D20B126231AA2B2047923926E7D99FE|73\n--\n",
    b"1|5|1000000|1000000\n--\nanna|archivist\ncarl|clerk\n--\n1|0|archivist|dispose|*|*|-25567|21914\n2|1|archivist|*|*|*|19783|21915\n3|0|clerk|class|*|*|-25567|2859848\n--\ny1|1\n--\nmaps\n--\n1|A-1|maps|y1|19782|19783|1|3||20147|0\n2|A-2|maps|y1|19782|19783|1|3||20147|0\n--\n1|bagit.txt|1|BagIt-Version: 1.0\nTag-File-Character-Encoding: UTF-8\n\n1|data/a|2|abc\n1|manifest-sha256.txt|3|ba7816bf8f01cfea414140de5dae2223b00361a396177a9cb410ff61f20015ad  data/a\n\n2|bagit.txt|4|BagIt-Version: 0.97\nTag-File-Character-Encoding: UTF-8\n\n2|data/a|2|abc\n2|manifest-sha256.txt|3|ba7816bf8f01cfea414140de5dae2223b00361a396177a9cb410ff61f20015ad  data/a\n\n--\n--\n1|1712ECFB074BF29C4188AD3421032509159A09739FD604F8FE57038B4DDEFCC9|54\n2|BA7816BF8F01CFEA414140DE5DAE2223B00361A396177A9CB410FF61F20015AD|3\n3|229B690BB74C455DCF323FBF029F56AF1D20B126231AA2B2047923926E7D99FE|73\n4|E91F941BE5973FF71F1DCCBDD1A32D598881893A7F21BE516ACA743DA38B1689|55\n--\n",
    b"1|5|1000000|1000000\n--\nanna|archivist\ncarl|clerk\n--\n1|0|archivist|dispose|*|*|-25567|21914\n2|1|archivist|*|*|*|19783|21915\n3|0|clerk|class|*|*|-25567|2859848\n--\ny1|2\n--\nmaps\n--\n1|A-1|maps|y1|19782|19783|1|3||20512|0\n2|A-2|maps|y1|19782|19783|1|3||20512|0\n--\n1|bagit.txt|1|BagIt-Version: 1.0\nTag-File-Character-Encoding: UTF-8\n\n1|data/a|2|abc\n1|manifest-sha256.txt|3|ba7816bf8f01cfea414140de5dae2223b00361a396177a9cb410ff61f20015ad  data/a\n\n2|bagit.txt|4|BagIt-Version: 0.97\nTag-File-Character-Encoding: UTF-8\n\n2|data/a|2|abc\n2|manifest-sha256.txt|3|ba7816bf8f01cfea414140de5dae2223b00361a396177a9cb410ff61f20015ad  data/a\n\n--\n--\n1|1712ECFB074BF29C4188AD3421032509159A09739FD604F8FE57038B4DDEFCC9|54\n2|BA7816BF8F01CFEA414140DE5DAE2223B00361A396177A9CB410FF61F20015AD|3\n3|229B690BB74C455DCF323FBF029F56AF1D20B126231AA2B2047923926E7D99FE|73\n4|E91F941BE5973FF71F1DCCBDD1A32D598881893A7F21BE516ACA743DA38B1689|55\n--\n",
    b"1|5|1000000|1000000\n--\nanna|archivist\ncarl|clerk\n--\n1|0|archivist|dispose|*|*|-25567|21914\n2|1|archivist|*|*|*|19783|21915\n3|0|clerk|class|*|*|-25567|2859848\n--\ny1|2\n--\nmaps\n--\n1|A-1|maps|y1|19782|19783|1|3||20512|1\n2|A-2|maps|y1|19782|19783|1|3||20512|0\n--\n1|bagit.txt|1|BagIt-Version: 1.0\nTag-File-Character-Encoding: UTF-8\n\n1|data/a|2|abc\n1|manifest-sha256.txt|3|ba7816bf8f01cfea414140de5dae2223b00361a396177a9cb410ff61f20015ad  data/a\n\n2|bagit.txt|4|BagIt-Version: 0.97\nTag-File-Character-Encoding: UTF-8\n\n2|data/a|2|abc\n2|manifest-sha256.txt|3|ba7816bf8f01cfea414140de5dae2223b00361a396177a9cb410ff61f20015ad  data/a\n\n--\n1|1|||Case 7|19784|\n--\n1|1712ECFB074BF29C4188AD3421032509159A09739FD604F8FE57038B4DDEFCC9|54\n2|BA7816BF8F01CFEA414140DE5DAE2223B00361A396177A9CB410FF61F20015AD|3\n3|229B690BB74C455DCF323FBF029F56AF1D20B126231AA2B2047923926E7D99FE|73\n4|E91F941BE5973FF71F1DCCBDD1A32D598881893A7F21BE516ACA743DA38B1689|55\n--\n",
    b"1|5|1000000|1000000\n--\nanna|archivist\ncarl|clerk\n--\n1|0|archivist|dispose|*|*|-25567|21914\n2|1|archivist|*|*|*|19783|21915\n3|0|clerk|class|*|*|-25567|2859848\n--\ny1|2\n--\nmaps\n--\n1|A-1|maps|y1|19782|19783|1|3||20512|2\n2|A-2|maps|y1|19782|19783|1|3||20512|1\n--\n1|bagit.txt|1|BagIt-Version: 1.0\nTag-File-Character-Encoding: UTF-8\n\n1|data/a|2|abc\n1|manifest-sha256.txt|3|ba7816bf8f01cfea414140de5dae2223b00361a396177a9cb410ff61f20015ad  data/a\n\n2|bagit.txt|4|BagIt-Version: 0.97\nTag-File-Character-Encoding: UTF-8\n\n2|data/a|2|abc\n2|manifest-sha256.txt|3|ba7816bf8f01cfea414140de5dae2223b00361a396177a9cb410ff61f20015ad  data/a\n\n--\n1|1|||Case 7|19784|\n2||maps||Case 7|19784|\n--\n1|1712ECFB074BF29C4188AD3421032509159A09739FD604F8FE57038B4DDEFCC9|54\n2|BA7816BF8F01CFEA414140DE5DAE2223B00361A396177A9CB410FF61F20015AD|3\n3|229B690BB74C455DCF323FBF029F56AF1D20B126231AA2B2047923926E7D99FE|73\n4|E91F941BE5973FF71F1DCCBDD1A32D598881893A7F21BE516ACA743DA38B1689|55\n--\n",
    b"1|5|1000000|1000000\n--\nanna|archivist\ncarl|clerk\n--\n1|0|archivist|dispose|*|*|-25567|21914\n2|1|archivist|*|*|*|19783|21915\n3|0|clerk|class|*|*|-25567|2859848\n--\ny1|2\n--\nmaps\n--\n1|A-1|maps|y1|19782|19783|1|3||20512|3\n2|A-2|maps|y1|19782|19783|1|3||20512|2\n--\n1|bagit.txt|1|BagIt-Version: 1.0\nTag-File-Character-Encoding: UTF-8\n\n1|data/a|2|abc\n1|manifest-sha256.txt|3|ba7816bf8f01cfea414140de5dae2223b00361a396177a9cb410ff61f20015ad  data/a\n\n2|bagit.txt|4|BagIt-Version: 0.97\nTag-File-Character-Encoding: UTF-8\n\n2|data/a|2|abc\n2|manifest-sha256.txt|3|ba7816bf8f01cfea414140de5dae2223b00361a396177a9cb410ff61f20015ad  data/a\n\n--\n1|1|||Case 7|19784|\n2||maps||Case 7|19784|\n3|||y1|Case 7|19784|\n--\n1|1712ECFB074BF29C4188AD3421032509159A09739FD604F8FE57038B4DDEFCC9|54\n2|BA7816BF8F01CFEA414140DE5DAE2223B00361A396177A9CB410FF61F20015AD|3\n3|229B690BB74C455DCF323FBF029F56AF1D20B126231AA2B2047923926E7D99FE|73\n4|E91F941BE5973FF71F1DCCBDD1A32D598881893A7F21BE516ACA743DA38B1689|55\n--\n",
    b"1|5|1000000|1000000\n--\nanna|archivist\ncarl|clerk\n--\n1|0|archivist|dispose|*|*|-25567|21914\n2|1|archivist|*|*|*|19783|21915\n3|0|clerk|class|*|*|-25567|2859848\n--\ny1|2\n--\nmaps\n--\n1|A-1|maps|y1|19782|19783|1|3||20512|3\n2|A-2|maps|y1|19782|19783|1|3||20512|2\n3|A-3|maps|y1|19782|19787|1|3||20512|2\n--\n1|bagit.txt|1|BagIt-Version: 1.0\nTag-File-Character-Encoding: UTF-8\n\n1|data/a|2|abc\n1|manifest-sha256.txt|3|ba7816bf8f01cfea414140de5dae2223b00361a396177a9cb410ff61f20015ad  data/a\n\n2|bagit.txt|4|BagIt-Version: 0.97\nTag-File-Character-Encoding: UTF-8\n\n2|data/a|2|abc\n2|manifest-sha256.txt|3|ba7816bf8f01cfea414140de5dae2223b00361a396177a9cb410ff61f20015ad  data/a\n\n3|bagit.txt|4|BagIt-Version: 0.97\nTag-File-Character-Encoding: UTF-8\n\n3|data/a|2|abc\n3|manifest-sha256.txt|3|ba7816bf8f01cfea414140de5dae2223b00361a396177a9cb410ff61f20015ad  data/a\n\n--\n1|1|||Case 7|19784|\n2||maps||Case 7|19784|\n3|||y1|Case 7|19784|\n--\n1|1712ECFB074BF29C4188AD3421032509159A09739FD604F8FE57038B4DDEFCC9|54\n2|BA7816BF8F01CFEA414140DE5DAE2223B00361A396177A9CB410FF61F20015AD|3\n3|229B690BB74C455DCF323FBF029F56AF1D20B126231AA2B2047923926E7D99FE|73\n4|E91F941BE5973FF71F1DCCBDD1A32D598881893A7F21BE516ACA743DA38B1689|55\n--\n",
    b"1|5|1000000|1000000\n--\nanna|archivist\ncarl|clerk\n--\n1|0|archivist|dispose|*|*|-25567|21914\n2|1|archivist|*|*|*|19783|21915\n3|0|clerk|class|*|*|-25567|2859848\n--\ny1|2\n--\nmaps\n--\n1|A-1|maps|y1|19782|19783|1|3||20512|2\n2|A-2|maps|y1|19782|19783|1|3||20512|1\n3|A-3|maps|y1|19782|19787|1|3||20512|1\n--\n1|bagit.txt|1|BagIt-Version: 1.0\nTag-File-Character-Encoding: UTF-8\n\n1|data/a|2|abc\n1|manifest-sha256.txt|3|ba7816bf8f01cfea414140de5dae2223b00361a396177a9cb410ff61f20015ad  data/a\n\n2|bagit.txt|4|BagIt-Version: 0.97\nTag-File-Character-Encoding: UTF-8\n\n2|data/a|2|abc\n2|manifest-sha256.txt|3|ba7816bf8f01cfea414140de5dae2223b00361a396177a9cb410ff61f20015ad  data/a\n\n3|bagit.txt|4|BagIt-Version: 0.97\nTag-File-Character-Encoding: UTF-8\n\n3|data/a|2|abc\n3|manifest-sha256.txt|3|ba7816bf8f01cfea414140de5dae2223b00361a396177a9cb410ff61f20015ad  data/a\n\n--\n1|1|||Case 7|19784|\n2||maps||Case 7|19784|19787\n3|||y1|Case 7|19784|\n--\n1|1712ECFB074BF29C4188AD3421032509159A09739FD604F8FE57038B4DDEFCC9|54\n2|BA7816BF8F01CFEA414140DE5DAE2223B00361A396177A9CB410FF61F20015AD|3\n3|229B690BB74C455DCF323FBF029F56AF1D20B126231AA2B2047923926E7D99FE|73\n4|E91F941BE5973FF71F1DCCBDD1A32D598881893A7F21BE516ACA743DA38B1689|55\n--\n",
    b"1|5|1000000|1000000\n--\nanna|archivist\ncarl|clerk\n--\n1|0|archivist|dispose|*|*|-25567|21914\n2|1|archivist|*|*|*|19783|21915\n3|0|clerk|class|*|*|-25567|2859848\n--\ny1|2\n--\nmaps\n--\n1|A-1|maps|y1|19782|19783|1|3||20512|1\n2|A-2|maps|y1|19782|19783|1|3||20512|1\n3|A-3|maps|y1|19782|19787|1|3||20512|1\n--\n1|bagit.txt|1|BagIt-Version: 1.0\nTag-File-Character-Encoding: UTF-8\n\n1|data/a|2|abc\n1|manifest-sha256.txt|3|ba7816bf8f01cfea414140de5dae2223b00361a396177a9cb410ff61f20015ad  data/a\n\n2|bagit.txt|4|BagIt-Version: 0.97\nTag-File-Character-Encoding: UTF-8\n\n2|data/a|2|abc\n2|manifest-sha256.txt|3|ba7816bf8f01cfea414140de5dae2223b00361a396177a9cb410ff61f20015ad  data/a\n\n3|bagit.txt|4|BagIt-Version: 0.97\nTag-File-Character-Encoding: UTF-8\n\n3|data/a|2|abc\n3|manifest-sha256.txt|3|ba7816bf8f01cfea414140de5dae2223b00361a396177a9cb410ff61f20015ad  data/a\n\n--\n1|1|||Case 7|19784|19787\n2||maps||Case 7|19784|19787\n3|||y1|Case 7|19784|\n--\n1|1712ECFB074BF29C4188AD3421032509159A09739FD604F8FE57038B4DDEFCC9|54\n2|BA7816BF8F01CFEA414140DE5DAE2223B00361A396177A9CB410FF61F20015AD|3\n3|229B690BB74C455DCF323FBF029F56AF1D20B126231AA2B2047923926E7D99FE|73\n4|E91F941BE5973FF71F1DCCBDD1A32D598881893A7F21BE516ACA743DA38B1689|55\n--\n",
    b"1|5|1000000|1000000\n--\nanna|archivist\ncarl|clerk\n--\n1|0|archivist|dispose|*|*|-25567|21914\n2|1|archivist|*|*|*|19783|21915\n3|0|clerk|class|*|*|-25567|2859848\n--\ny1|2\n--\nmaps\n--\n1|A-1|maps|y1|19782|19783|1|3||20512|0\n2|A-2|maps|y1|19782|19783|1|3||20512|0\n3|A-3|maps|y1|19782|19787|1|3||20512|0\n--\n1|bagit.txt|1|BagIt-Version: 1.0\nTag-File-Character-Encoding: UTF-8\n\n1|data/a|2|abc\n1|manifest-sha256.txt|3|ba7816bf8f01cfea414140de5dae2223b00361a396177a9cb410ff61f20015ad  data/a\n\n2|bagit.txt|4|BagIt-Version: 0.97\nTag-File-Character-Encoding: UTF-8\n\n2|data/a|2|abc\n2|manifest-sha256.txt|3|ba7816bf8f01cfea414140de5dae2223b00361a396177a9cb410ff61f20015ad  data/a\n\n3|bagit.txt|4|BagIt-Version: 0.97\nTag-File-Character-Encoding: UTF-8\n\n3|data/a|2|abc\n3|manifest-sha256.txt|3|ba7816bf8f01cfea414140de5dae2223b00361a396177a9cb410ff61f20015ad  data/a\n\n--\n1|1|||Case 7|19784|19787\n2||maps||Case 7|19784|19787\n3|||y1|Case 7|19784|19787\n--\n1|1712ECFB074BF29C4188AD3421032509159A09739FD604F8FE57038B4DDEFCC9|54\n2|BA7816BF8F01CFEA414140DE5DAE2223B00361A396177A9CB410FF61F20015AD|3\n3|229B690BB74C455DCF323FBF029F56AF1D20B126231AA2B2047923926E7D99FE|73\n4|E91F941BE5973FF71F1DCCBDD1A32D598881893A7F21BE516ACA743DA38B1689|55\n--\n",
    b"1|5|1000000|1000000\n--\nanna|archivist\ncarl|clerk\n--\n1|0|archivist|dispose|*|*|-25567|21914\n2|1|archivist|*|*|*|19783|21915\n3|0|clerk|class|*|*|-25567|2859848\n--\ny1|2\n--\nmaps\n--\n1|A-1|maps|y1|19782|19783|1|3|21915|20512|0\n2|A-2|maps|y1|19782|19783|1|3||20512|0\n3|A-3|maps|y1|19782|19787|1|3||20512|0\n--\n2|bagit.txt|4|BagIt-Version: 0.97\nTag-File-Character-Encoding: UTF-8\n\n2|data/a|2|abc\n2|manifest-sha256.txt|3|ba7816bf8f01cfea414140de5dae2223b00361a396177a9cb410ff61f20015ad  data/a\n\n3|bagit.txt|4|BagIt-Version: 0.97\nTag-File-Character-Encoding: UTF-8\n\n3|data/a|2|abc\n3|manifest-sha256.txt|3|ba7816bf8f01cfea414140de5dae2223b00361a396177a9cb410ff61f20015ad  data/a\n\n--\n1|1|||Case 7|19784|19787\n2||maps||Case 7|19784|19787\n3|||y1|Case 7|19784|19787\n--\n2|BA7816BF8F01CFEA414140DE5DAE2223B00361A396177A9CB410FF61F20015AD|3\n3|229B690BB74C455DCF323FBF029F56AF1D20B126231AA2B2047923926E7D99FE|73\n4|E91F941BE5973FF71F1DCCBDD1A32D598881893A7F21BE516ACA743DA38B1689|55\n--\n",
];

/// The stock of the office then: how many contents, and how many bytes.
pub(crate) static STOCKS: [(usize, usize); 16] = [
    (0, 0),
    (0, 0),
    (0, 0),
    (0, 0),
    (0, 0),
    (3, 130),
    (4, 185),
    (4, 185),
    (4, 185),
    (4, 185),
    (4, 185),
    (4, 185),
    (4, 185),
    (4, 185),
    (4, 185),
    (3, 131),
];

/// Installs the policy: whether it was installed. Fails where another fault than the store's is
/// told.
fn installs<S: Alter>(alloc: Global, office: &mut Office<S>, text: &str) -> Result<bool, Fail> {
    let policy = read_policy(alloc, text)?;
    match office.install(alloc, &policy) {
        Ok(()) => Ok(true),
        Err(TableFault::Store) => Ok(false),
        Err(_) => Err("the policy was not installed".into()),
    }
}

/// Whether it is answered as was worked out, or that the store failed. Fails where it is neither.
fn is_accepted(alloc: Global, said: &[u8], wanted: &[u8], failed: &[u8]) -> Result<bool, Fail> {
    if said == failed {
        return Ok(false);
    }
    compare(alloc, said, wanted)?;
    Ok(true)
}

/// Takes a step: whether it is answered as was worked out, or that the store failed.
fn takes<S: Alter>(
    alloc: Global,
    office: &mut Office<S>,
    way: Way,
    step: &Step,
) -> Result<bool, Fail> {
    match way {
        Way::Called => {
            let text = answer_in_words(alloc, office, step.day, "anna", step.asked)?;
            is_accepted(alloc, text.as_bytes(), step.told, b"Store")
        }
        Way::Sent => {
            let (ended, text) = serve_request(
                alloc,
                office,
                step.day,
                step.request,
                Devices::whole(Portion::All),
            )?;
            if ended.is_err() {
                return Err("the desk did not answer".into());
            }
            is_accepted(alloc, &text, step.answer, STORE_FAILED)
        }
    }
}

/// Goes on with a session that has come so far, until the store fails: how far that is.
pub(crate) fn go_on<S: Alter>(
    alloc: Global,
    office: &mut Office<S>,
    way: Way,
    found: usize,
) -> Result<usize, Fail> {
    let mut reached = found;
    for text in POLICIES.iter().skip(found) {
        if !installs(alloc, office, *text)? {
            return Ok(reached);
        }
        reached = reached.saturating_add(1);
    }
    for step in STEPS.iter().skip(found.saturating_sub(POLICIES.len())) {
        if !takes(alloc, office, way, step)? {
            return Ok(reached);
        }
        reached = reached.saturating_add(1);
    }
    Ok(reached)
}
