//! What peers send to an office, and what they get, worked out by hand from `docs/HTTP.md`.

use crate::answers::{MAPS, NO_DEPOSIT, TOO_LARGE, TRUNCATED};
use crate::peers::{Peer, Then, call_all, hear_all};
use desk_listening::{Drained, Patience, Sockets, drain, serve_connections};
use http_desk::{Counted, FailAt, Portion};
use office_core::Day;
use office_engine::Office;
use sqlite::Alter;
use std::alloc::Global;
use std::io::{ErrorKind, Write};
use std::net::TcpListener;
use std::test::Fail;
use std::time::Duration;

/// Asks for a deposit that isn't there.
pub(crate) const ASKS: Peer = Peer {
    sends: "GET /deposits/7 HTTP/1.1\r\nDepot-Caller: anna\r\n\r\n",
    letters: 0,
    then: Then::EndsItsInput,
    gets: NO_DEPOSIT,
};

pub(crate) const DEFINES: Peer = Peer {
    sends: "PUT /collections/maps HTTP/1.1\r\nDepot-Caller: anna\r\n\r\n",
    gets: MAPS,
    ..ASKS
};

/// Waits for its answer, and doesn't say that it sends no more.
const STAYS: Peer = Peer {
    then: Then::Waits,
    ..ASKS
};

const GOES: Peer = Peer {
    then: Then::HangsUp,
    gets: b"",
    ..ASKS
};

const GOES_AT_ONCE: Peer = Peer {
    sends: "",
    then: Then::HangsUp,
    gets: b"",
    ..ASKS
};

pub(crate) const SENDS_HALF: Peer = Peer {
    sends: "GET /deposits/7 HTTP/1.1\r\nDepot-",
    gets: TRUNCATED,
    ..ASKS
};

const SENDS_NOTHING: Peer = Peer {
    sends: "",
    gets: TRUNCATED,
    ..ASKS
};

/// Is too slow: it is left without an answer.
pub(crate) const STOPS: Peer = Peer {
    then: Then::Waits,
    gets: b"",
    ..SENDS_HALF
};

const SAYS_NOTHING: Peer = Peer { sends: "", ..STOPS };

/// Goes on sending, though its answer is decided.
const SENDS_TOO_MUCH: Peer = Peer {
    sends: "POST /deposits HTTP/1.1\r\nContent-Length: 16777217\r\n\r\n",
    letters: 60_000,
    then: Then::Waits,
    gets: TOO_LARGE,
};

/// Sends more than its request.
const SENDS_MORE: Peer = Peer {
    letters: 60_000,
    ..STAYS
};

/// Peers that connect in this order, and how many connections are answered, and how many aren't.
#[derive(Clone, Copy)]
pub(crate) struct Queue {
    pub(crate) name: &'static str,
    pub(crate) peers: &'static [Peer],
    /// How many connections are taken.
    pub(crate) count: u32,
    /// How many milliseconds a peer may take.
    pub(crate) talk: u64,
    pub(crate) answered: u32,
    pub(crate) failed: u32,
    /// What ends the serving, where the listener doesn't wait for a connection.
    pub(crate) stops: Option<ErrorKind>,
}

/// One peer, which is answered.
pub(crate) const ONE: Queue = Queue {
    name: "one asks",
    peers: &[ASKS],
    count: 1,
    talk: 50,
    answered: 1,
    failed: 0,
    stops: None,
};

/// Two peers, both of which are answered.
const TWO: Queue = Queue {
    name: "two in a row",
    peers: &[DEFINES, ASKS],
    count: 2,
    answered: 2,
    ..ONE
};

static QUEUES: [Queue; 15] = [
    Queue {
        name: "nobody",
        peers: &[],
        count: 0,
        answered: 0,
        ..ONE
    },
    ONE,
    Queue {
        name: "one waits for its answer",
        peers: &[STAYS],
        ..ONE
    },
    TWO,
    Queue {
        name: "one goes without its answer",
        peers: &[GOES, ASKS],
        ..TWO
    },
    Queue {
        name: "one goes at once",
        peers: &[GOES_AT_ONCE, ASKS],
        ..TWO
    },
    Queue {
        name: "half a request",
        peers: &[SENDS_HALF, ASKS],
        ..TWO
    },
    Queue {
        name: "an input of nothing",
        peers: &[SENDS_NOTHING, ASKS],
        ..TWO
    },
    Queue {
        name: "one stops in mid-request",
        peers: &[STOPS, ASKS],
        count: 2,
        failed: 1,
        ..ONE
    },
    Queue {
        name: "one says nothing",
        peers: &[SAYS_NOTHING, ASKS],
        count: 2,
        failed: 1,
        ..ONE
    },
    Queue {
        name: "two say nothing",
        peers: &[SAYS_NOTHING, ASKS, STOPS, DEFINES],
        count: 4,
        failed: 2,
        ..TWO
    },
    Queue {
        name: "a body too large",
        peers: &[SENDS_TOO_MUCH, ASKS],
        ..TWO
    },
    Queue {
        name: "more than a request",
        peers: &[SENDS_MORE, ASKS],
        ..TWO
    },
    Queue {
        name: "no wait at all",
        peers: &[ASKS],
        talk: 0,
        answered: 0,
        failed: 1,
        ..ONE
    },
    Queue {
        name: "a listener that gives no more",
        peers: &[ASKS],
        count: 3,
        stops: Some(ErrorKind::WouldBlock),
        ..ONE
    },
];

/// Serves the peers of a queue. Fails where other connections are answered, or the serving ends otherwise.
fn serve_queue<S: Alter, E: Write>(
    alloc: Global,
    office: &mut Office<S>,
    sockets: &mut Sockets<'_>,
    queue: &Queue,
    log: &mut Counted<E>,
) -> Result<(), Fail> {
    let day = Day::read("2024-03-01").ok_or("day")?;
    let patience = Patience {
        talk: Duration::from_millis(queue.talk),
        rest: Duration::from_millis(50),
        ..Patience::default()
    };
    let served = serve_connections(alloc, office, day, sockets, queue.count, &patience, log);
    let (served, stops) = match served {
        Ok(served) => (served, None),
        Err(failure) => (failure.served, Some(failure.error.kind())),
    };
    if served.answered != queue.answered || served.failed != queue.failed || stops != queue.stops {
        return Err(Fail::new(queue.name));
    }
    Ok(())
}

/// Has the peers of a queue call, serves them, and hears what they got. Who was refused any wait isn't
/// heard: what it sent was not read, so that its connection is reset.
pub(crate) fn take_queue<S: Alter, E: Write>(
    rt: &HostRuntime,
    office: &mut Office<S>,
    listener: &TcpListener,
    queue: &Queue,
    log: &mut Counted<E>,
) -> Result<(), Fail> {
    listener.set_nonblocking(queue.stops.is_some())?;
    let streams = call_all(rt, queue.peers, listener.local_addr()?)?;
    let mut sockets = Sockets::new(rt.alloc(), listener);
    serve_queue(rt.alloc(), office, &mut sockets, queue, log)?;
    if queue.talk != 0 {
        hear_all(rt, queue.peers, streams)?;
    }
    Ok(())
}

/// Peers of an office on 2024-03-01.
pub(crate) fn take_peers<S: Alter>(rt: &HostRuntime, office: &mut Office<S>) -> Result<(), Fail> {
    let listener = TcpListener::bind(rt, "127.0.0.1:0")?;
    for queue in &QUEUES {
        let mut log = Counted::new(Vec::new(rt.alloc()));
        take_queue(rt, office, &listener, queue, &mut log)?;
    }
    Ok(())
}

/// What still comes.
const BODY: &[u8] = b"body";

/// What is dropped of it, over a device that fails after this number of calls.
struct Dropped {
    portion: Portion,
    calls: u64,
    most: usize,
    end: Drained,
    /// What isn't read.
    left: &'static [u8],
    failures: u64,
}

static DROPS: [Dropped; 7] = [
    Dropped {
        portion: Portion::OneByte,
        calls: 9,
        most: 9,
        end: Drained::End,
        left: b"",
        failures: 0,
    },
    Dropped {
        portion: Portion::OneByte,
        calls: 9,
        most: 3,
        end: Drained::Enough,
        left: b"y",
        failures: 0,
    },
    Dropped {
        portion: Portion::OneByte,
        calls: 2,
        most: 3,
        end: Drained::Failed,
        left: b"dy",
        failures: 1,
    },
    Dropped {
        portion: Portion::OneByte,
        calls: 0,
        most: 0,
        end: Drained::Enough,
        left: b"body",
        failures: 0,
    },
    Dropped {
        portion: Portion::All,
        calls: 9,
        most: 3,
        end: Drained::Enough,
        left: b"y",
        failures: 0,
    },
    Dropped {
        portion: Portion::All,
        calls: 1,
        most: 4,
        end: Drained::Enough,
        left: b"",
        failures: 0,
    },
    Dropped {
        portion: Portion::All,
        calls: 1,
        most: 5,
        end: Drained::Failed,
        left: b"",
        failures: 1,
    },
];

/// What still comes is dropped. Fails where that ends otherwise, or drops something else.
pub(crate) fn drop_all() -> Result<(), Fail> {
    for row in &DROPS {
        let mut reader = Counted::new(FailAt::new(BODY, row.portion, row.calls));
        let end = drain(&mut reader, row.most);
        if end != row.end
            || reader.device().memory != row.left
            || reader.failures() != row.failures
        {
            return Err("another end of what still comes".into());
        }
    }
    Ok(())
}
