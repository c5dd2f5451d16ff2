//! A listener whose `accept` fails, and what is done with the peers that come before and after that.

use desk_listening::{Listener, Patience, Peer, PeerCall, serve_connections};
use http_desk::Counted;
use office_core::Day;
use office_engine::Office;
use sqlite::Alter;
use std::alloc::Global;
use std::io;
use std::io::{Error, ErrorKind};
use std::net::Shutdown;
use std::test::Fail;
use std::time::Duration;
use test_sessions::{TestRequest, answer_in_words};

/// Places a hold.
const PLACES: &[u8] =
    b"POST /holds HTTP/1.1\r\nDepot-Caller: anna\r\nContent-Length: 39\r\n\r\n{\"collection\":\"maps\",\"matter\":\"Case 7\"}";

/// Numbers of Linux: a connection was aborted, a signal came, there are too many open files, there is
/// no memory.
const ECONNABORTED: i32 = 103;

const EINTR: i32 = 4;

const EMFILE: i32 = 24;

const ENOMEM: i32 = 12;

/// What an `accept` answers.
#[derive(Clone, Copy)]
enum Turn {
    /// A peer comes, which places a hold.
    Comes,
    /// The system fails with that number.
    Fails(i32),
}

/// A peer in memory, and what was set and shut of it.
#[derive(Drop)]
struct Caller {
    calls: Vec<PeerCall>,
}

impl Caller {
    ghost use Rattle.std.specs.Prelude.{◌≡◌, ◌∷◌, ◌++◌, [], OnOk};

    fn note(&mut self, call: PeerCall) -> io::Result<()>
        ensures { OnOk result (self.new.calls.items ≡ self.old.calls.items ++ call ∷ []) }
    {
        self.calls.push(call)?;
        Ok(())
    }
}

impl Peer for Caller {
    ghost use Rattle.std.specs.Prelude.{◌≡◌, ◌∷◌, ◌++◌, [], true};

    type Reader = &'static [u8];

    type Writer = Vec<u8>;

    ghost does = { λ old call worked new. worked ≡ true → new.calls.items ≡ old.calls.items ++ call ∷ [] };

    ghost opens = { λ old _ new. new ≡ old };

    fn set_read_wait(&mut self, wait: Duration) -> io::Result<()> {
        self.note(PeerCall::ReadWait(wait))
    }

    fn set_write_wait(&mut self, wait: Duration) -> io::Result<()> {
        self.note(PeerCall::WriteWait(wait))
    }

    fn ends(&mut self) -> io::Result<(&'static [u8], Vec<u8>)> {
        Ok((PLACES, Vec::new(*self.calls.allocator())))
    }

    fn shut(&mut self, side: Shutdown) -> io::Result<()> {
        self.note(PeerCall::Shut(side))
    }
}

/// A listener that answers turn by turn.
#[derive(Drop)]
struct Script {
    alloc: Global,
    turns: &'static [Turn],
    /// How often `accept` was called.
    accepts: usize,
    /// The peers that were closed.
    closed: Vec<Caller>,
}

impl Listener for Script {
    ghost use Rattle.std.specs.Prelude.{⊤};

    type Stream = Caller;

    ghost accepts = { λ _ _ _. ⊤ };

    ghost closes = { λ _ _ _. ⊤ };

    fn accept(&mut self) -> io::Result<Caller> {
        let turn = self.turns.get(self.accepts).copied();
        self.accepts = self.accepts.saturating_add(1);
        match turn {
            Some(Turn::Comes) => Ok(Caller {
                calls: Vec::new(self.alloc),
            }),
            Some(Turn::Fails(number)) => Err(Error::from_raw_os_error(number)),
            None => Err(Error::from(ErrorKind::BrokenPipe)),
        }
    }

    // One that isn't kept is missed when they are counted.
    fn close(&mut self, stream: Caller) {
        let _kept = self.closed.push(stream);
    }
}

/// Turns, and what comes of this number of connections. A hold that is placed after them tells how many were
/// placed before.
struct Case {
    turns: &'static [Turn],
    count: u32,
    answered: u32,
    failed: u32,
    /// What ends the serving.
    stops: Option<ErrorKind>,
    accepts: usize,
    closed: usize,
    next: &'static str,
}

static CASES: [Case; 6] = [
    Case {
        turns: &[Turn::Fails(ECONNABORTED), Turn::Comes, Turn::Comes],
        count: 2,
        answered: 1,
        failed: 1,
        stops: None,
        accepts: 2,
        closed: 1,
        next: "hold 2",
    },
    Case {
        turns: &[Turn::Comes, Turn::Fails(EINTR), Turn::Comes],
        count: 3,
        answered: 2,
        failed: 1,
        stops: None,
        accepts: 3,
        closed: 2,
        next: "hold 5",
    },
    Case {
        turns: &[Turn::Fails(EMFILE), Turn::Comes],
        count: 2,
        answered: 0,
        failed: 0,
        stops: Some(ErrorKind::Uncategorized),
        accepts: 1,
        closed: 0,
        next: "hold 6",
    },
    Case {
        turns: &[Turn::Comes, Turn::Fails(EMFILE), Turn::Comes],
        count: 3,
        answered: 1,
        failed: 0,
        stops: Some(ErrorKind::Uncategorized),
        accepts: 2,
        closed: 1,
        next: "hold 8",
    },
    Case {
        turns: &[Turn::Fails(ENOMEM), Turn::Comes],
        count: 2,
        answered: 0,
        failed: 0,
        stops: Some(ErrorKind::OutOfMemory),
        accepts: 1,
        closed: 0,
        next: "hold 9",
    },
    Case {
        turns: &[
            Turn::Comes,
            Turn::Fails(ECONNABORTED),
            Turn::Fails(ENOMEM),
            Turn::Comes,
        ],
        count: 4,
        answered: 1,
        failed: 1,
        stops: Some(ErrorKind::OutOfMemory),
        accepts: 3,
        closed: 1,
        next: "hold 11",
    },
];

/// Whether a peer that was answered was treated so.
fn is_left(caller: &Caller, patience: &Patience) -> bool {
    caller.calls.as_slice()
        == [
            PeerCall::ReadWait(patience.talk),
            PeerCall::WriteWait(patience.talk),
            PeerCall::Shut(Shutdown::Write),
            PeerCall::ReadWait(patience.rest),
        ]
        .as_slice()
}

/// Serves the turns of a case. Fails where they come to another end, or the log isn't told of it.
fn serve_turns<S: Alter>(
    alloc: Global,
    office: &mut Office<S>,
    script: &mut Script,
    case: &Case,
) -> Result<(), Fail> {
    let day = Day::read("2024-03-01").ok_or("day")?;
    let patience = Patience::default();
    let mut log = Counted::new(Vec::new(alloc));
    let served = serve_connections(alloc, office, day, script, case.count, &patience, &mut log);
    let (served, stops) = match served {
        Ok(served) => (served, None),
        Err(failure) => (failure.served, Some(failure.error.kind())),
    };
    if served.answered != case.answered || served.failed != case.failed || stops != case.stops {
        return Err("other connections than the turns give".into());
    }
    if log.device().is_empty() != stops.is_some() {
        return Err("the log is told otherwise".into());
    }
    Ok(())
}

/// Fails where the listener was called otherwise than in the case, or a peer treated otherwise.
fn compare_calls(script: &Script, case: &Case) -> Result<(), Fail> {
    if script.accepts != case.accepts || script.closed.len() != case.closed {
        return Err("other calls of the listener".into());
    }
    let patience = Patience::default();
    let mut callers = script.closed.iter();
    if !callers.all(|caller| is_left(caller, &patience)) {
        return Err("a peer is treated otherwise".into());
    }
    Ok(())
}

/// Has the listener answer the turns of a case. Fails where something else comes of it.
fn take_turns<S: Alter>(alloc: Global, office: &mut Office<S>, case: &Case) -> Result<(), Fail> {
    let mut script = Script {
        alloc,
        turns: case.turns,
        accepts: 0,
        closed: Vec::new(alloc),
    };
    serve_turns(alloc, office, &mut script, case)?;
    compare_calls(&script, case)
}

/// Places a hold. Fails where it has another number than in the case.
fn place_next<S: Alter>(alloc: Global, office: &mut Office<S>, case: &Case) -> Result<(), Fail> {
    let asked = TestRequest::HoldCollection("maps");
    let next = answer_in_words(alloc, office, "2024-03-01", "anna", asked)?;
    if next.as_str() != case.next {
        return Err(Fail::new(next));
    }
    Ok(())
}

/// An `accept` that fails for one connection counts as one. Any other failure ends the serving: the
/// office is as the connections before it left it, and `accept` isn't called again.
pub(crate) fn take_accepts<S: Alter>(alloc: Global, office: &mut Office<S>) -> Result<(), Fail> {
    for case in &CASES {
        take_turns(alloc, office, case)?;
        place_next(alloc, office, case)?;
    }
    Ok(())
}
