//! What the log is told of an office that fails for one of its callers, worked out by hand from
//! `docs/OPERATING.md`: also of a log that fails itself.

use crate::answers::{DENIED, NO_DEPOSITS, STORE_FAILED};
use crate::desk::compare;
use crate::listening::{ASKS, DEFINES, ONE, Queue, SENDS_HALF, STOPS, take_queue};
use crate::peers::{Peer, Then};
use http_desk::{Counted, FailAt, Portion};
use office_engine::Office;
use sqlite::Alter;
use std::io;
use std::io::{Error, ErrorKind, Write};
use std::net::TcpListener;
use std::test::Fail;

/// Takes the role of `carl` for another, which no policy has; and gives it back.
const SPOILS: &str = "UPDATE caller SET role = 'Clerk' WHERE name = 'carl'";

const MENDS: &str = "UPDATE caller SET role = 'clerk' WHERE name = 'carl'";

const LISTS: Peer = Peer {
    sends: "GET /deposits HTTP/1.1\r\nDepot-Caller: anna\r\n\r\n",
    gets: NO_DEPOSITS,
    ..ASKS
};

const CARL_LISTS: Peer = Peer {
    sends: "GET /deposits HTTP/1.1\r\nDepot-Caller: carl\r\n\r\n",
    gets: STORE_FAILED,
    ..ASKS
};

/// Goes without its answer.
const CARL_GOES: Peer = Peer {
    then: Then::HangsUp,
    gets: b"",
    ..CARL_LISTS
};

const CARL_DEFINES: Peer = Peer {
    sends: "PUT /collections/maps HTTP/1.1\r\nDepot-Caller: carl\r\n\r\n",
    gets: STORE_FAILED,
    ..ASKS
};

/// Is nobody whom the policy names.
const BOB_DEFINES: Peer = Peer {
    sends: "PUT /collections/maps HTTP/1.1\r\nDepot-Caller: bob\r\n\r\n",
    gets: DENIED,
    ..ASKS
};

/// `carl` fails, and the others don't. The tenth change in a row that fails is that of connection 18.
const TROUBLED: Queue = Queue {
    name: "one fails",
    peers: &[
        DEFINES,
        CARL_LISTS,
        CARL_DEFINES,
        BOB_DEFINES,
        CARL_GOES,
        SENDS_HALF,
        ASKS,
        STOPS,
        LISTS,
        CARL_DEFINES,
        CARL_DEFINES,
        CARL_DEFINES,
        CARL_DEFINES,
        CARL_DEFINES,
        CARL_DEFINES,
        CARL_DEFINES,
        CARL_DEFINES,
        CARL_DEFINES,
        LISTS,
        DEFINES,
        CARL_DEFINES,
    ],
    count: 21,
    answered: 20,
    failed: 1,
    ..ONE
};

const LINES: &[u8] = b"depot: connection 2: a reading was answered Store, 1 in a row\n\
    depot: connection 3: a change was answered Store, 1 in a row\n\
    depot: connection 9: a reading succeeded again, after 2 in a row, the last answered Store\n\
    depot: connection 18: a change was answered Store, 10 in a row\n\
    depot: connection 20: a change was accepted again, after 10 in a row, the last answered Store\n\
    depot: connection 21: a change was answered Store, 1 in a row\n\
    depot: serving ended after the connections that were asked for: 21\n";

/// The same without the third line.
const LINES_BUT_ONE: &[u8] = b"depot: connection 2: a reading was answered Store, 1 in a row\n\
    depot: connection 3: a change was answered Store, 1 in a row\n\
    depot: connection 18: a change was answered Store, 10 in a row\n\
    depot: connection 20: a change was accepted again, after 10 in a row, the last answered Store\n\
    depot: connection 21: a change was answered Store, 1 in a row\n\
    depot: serving ended after the connections that were asked for: 21\n";

/// A log in memory. The call after those that are left fails, and no other.
#[derive(Drop)]
struct FailsOnce {
    memory: Vec<u8>,
    calls_left: u64,
    has_failed: bool,
}

impl Write for FailsOnce {
    fn write(&mut self, buf: &[u8]) -> io::Result<usize> {
        if self.calls_left == 0 && !self.has_failed {
            self.has_failed = true;
            return Err(Error::from(ErrorKind::StorageFull));
        }
        self.calls_left = self.calls_left.saturating_sub(1);
        self.memory.write(buf)
    }

    fn flush(&mut self) -> io::Result<()> {
        Ok(())
    }
}

/// A log that takes a portion at a call, fails after this number of calls, and has this many bytes of the
/// lines then.
struct LogCase {
    portion: Portion,
    calls: u64,
    holds: usize,
}

static LOGS: [LogCase; 4] = [
    LogCase {
        portion: Portion::All,
        calls: u64::MAX,
        holds: 499,
    },
    LogCase {
        portion: Portion::All,
        calls: 0,
        holds: 0,
    },
    LogCase {
        portion: Portion::All,
        calls: 1,
        holds: 62,
    },
    LogCase {
        portion: Portion::OneByte,
        calls: 70,
        holds: 70,
    },
];

/// Runs SQL on the tables of the office.
pub(crate) fn altered<S: Alter + Drop>(office: Office<S>, sql: &str) -> Result<Office<S>, Fail> {
    let mut conn = office.into_connection();
    if conn.execute_batch(sql).is_err() || !conn.is_autocommit() {
        return Err("a row can't be altered".into());
    }
    match Office::adopt(conn) {
        Ok(office) => Ok(office),
        Err(_) => Err("the office was not adopted".into()),
    }
}

/// Serves the peers with a log that may fail. Each gets its answer all the same.
fn take_log<S: Alter>(
    rt: &HostRuntime,
    office: &mut Office<S>,
    listener: &TcpListener,
    case: &LogCase,
) -> Result<(), Fail> {
    let memory = Vec::new(rt.alloc());
    let mut log = Counted::new(FailAt::new(memory, case.portion, case.calls));
    take_queue(rt, office, listener, &TROUBLED, &mut log)?;
    let wanted = LINES.get(..case.holds).ok_or("few lines")?;
    compare(rt.alloc(), &log.device().memory, wanted)
}

/// Serves the peers with a log that fails to take the third line, and takes those after it.
fn take_mending_log<S: Alter>(
    rt: &HostRuntime,
    office: &mut Office<S>,
    listener: &TcpListener,
) -> Result<(), Fail> {
    let mut log = Counted::new(FailsOnce {
        memory: Vec::new(rt.alloc()),
        calls_left: 2,
        has_failed: false,
    });
    take_queue(rt, office, listener, &TROUBLED, &mut log)?;
    compare(rt.alloc(), &log.device().memory, LINES_BUT_ONE)
}

/// The peers of an office that fails for one of them, on 2024-03-01.
pub(crate) fn take_troubles<S: Alter + Drop>(
    rt: &HostRuntime,
    office: Office<S>,
) -> Result<Office<S>, Fail> {
    let listener = TcpListener::bind(rt, "127.0.0.1:0")?;
    let mut office = altered(office, SPOILS)?;
    for case in &LOGS {
        take_log(rt, &mut office, &listener, case)?;
    }
    take_mending_log(rt, &mut office, &listener)?;
    altered(office, MENDS)
}
