//! Connections, served one after the other.

ghost use Rattle.std.specs.Prelude.{◌≡◌, ◌+◌, ◌<◌, ℕ, Bool, List, Err, IfErr, IfOk, is_ok};
ghost use Rattle.std.specs.IoError.{error_kind};
ghost use Rattle.desk_log.specs.Logging.{IsLogged, log_of};
ghost use Rattle.desk_listening.specs.Accepting.{CountsAs, EndsAlone, EndsAt, Takes, TakesAll, served_of};
ghost use Rattle.desk_listening.specs.Listening.{Connection, IsAfter, IsAfterAll, IsRun, ReportsConnection, is_answered, noted};
ghost use Rattle.desk_listening.specs.Logging.{all_lines};
ghost use Rattle.desk_listening.specs.Peers.{Talks, Treats};

use crate::accepting::{AcceptFailed, Served, ends_one_connection};
use crate::ends::{Ends, hang_up, open};
use crate::listener::Listener;
use crate::patience::Patience;
use crate::peer::Peer;
use desk_devices::Counted;
use desk_log::{OfficeNote, Watch, tell_end};
use desk_routes::Routes;
use desk_serving::{DeskFault, serve_with_routes};
use office_core::Day;
use office_engine::Office;
use sqlite::Alter;
use std::alloc::Global;
use std::io;
use std::io::Write;

/// Serves the one request that comes over these ends, and leaves the peer: what came of it, and what is
/// noted of the office's answer.
fn serve_ends<S: Alter, P: Peer>(
    alloc: Global,
    routes: &Routes,
    office: &mut Office<S>,
    day: Day,
    peer: &mut P,
    ends: &mut Ends<P::Reader, P::Writer>,
    patience: &Patience,
) -> (Result<(), DeskFault>, Option<OfficeNote>)
    ensures { (connection : Connection)
        × IsAfter S.Store day connection office.old office.new
        × ReportsConnection result.0 connection × (result.1 ≡ noted connection)
        × Talks (record { peer = P.Peer; reads = P.Reader.Read; writes = P.Writer.Write })
        patience.now (record { peer = peer.old; ends = ends.old }) connection
        (record { peer = peer.new; ends = ends.new }) }
{
    let Ends { reader, writer } = ends;
    let (ended, note) = serve_with_routes(alloc, routes, office, day, reader, writer);
    match ended {
        Ok(()) => {
            let _left = hang_up(peer, reader, patience);
            (Ok(()), note)
        }
        Err(fault) => (Err(fault), note),
    }
}

/// Serves the one request of a connection, and leaves the peer: what came of it, and what is noted of the
/// office's answer.
///
/// A connection that takes no waits, or has no ends, is a `Read`: nothing was done. Where there is no table
/// of the routes yet, it is made, for those that follow too.
pub fn serve_peer<S: Alter, P: Peer>(
    alloc: Global,
    routes: &mut Option<Routes>,
    office: &mut Office<S>,
    day: Day,
    peer: &mut P,
    patience: &Patience,
) -> (Result<(), DeskFault>, Option<OfficeNote>)
    ensures { (connection : Connection)
        × IsAfter S.Store day connection office.old office.new
        × ReportsConnection result.0 connection × (result.1 ≡ noted connection)
        × Treats (record { peer = P.Peer; reads = P.Reader.Read; writes = P.Writer.Write })
        patience.now peer.old connection peer.new }
{
    let Ok(mut ends) = open(peer, patience.talk) else {
        return (Err(DeskFault::Read), None);
    };
    match routes.get_or_try_insert_with(|| Routes::new(alloc)) {
        Ok(routes) => serve_ends(alloc, routes, office, day, peer, &mut ends, patience),
        Err(_) => (Err(DeskFault::Memory { done: false }), None),
    }
}

/// What came of a connection.
#[derive(Clone, Copy)]
struct Taken {
    /// Whether its whole answer was written.
    answered: bool,
    /// What is noted of the office's answer.
    note: Option<OfficeNote>,
}

/// Takes one connection, serves it and closes it. Fails where `accept` does, unless that ends this one
/// connection alone.
fn serve_next<S: Alter, P: Peer, L: Listener<Stream = P>>(
    alloc: Global,
    routes: &mut Option<Routes>,
    office: &mut Office<S>,
    day: Day,
    listener: &mut L,
    patience: &Patience,
) -> io::Result<Taken>
    ensures served { IfOk result (λ taken. (connection : Connection)
        × (is_answered connection ≡ taken.answered) × (taken.note ≡ noted connection)
        × IsAfter S.Store day connection office.old office.new
        × Takes L.Listener
        (Treats (record { peer = P.Peer; reads = P.Reader.Read; writes = P.Writer.Write })
        patience.now) connection listener.old listener.new) }
    ensures failed { IfErr result (λ error. ¬ EndsAlone (error_kind error)) }
    ensures accepts { IfErr result (λ error. L.accepts listener.old (Err error) listener.new) }
    ensures same { IfErr result (λ _. office.new ≡ office.old) }
{
    let mut peer = match listener.accept() {
        Ok(peer) => peer,
        Err(error) if ends_one_connection(error.kind()) => {
            return Ok(Taken {
                answered: false,
                note: None,
            });
        }
        Err(error) => return Err(error),
    };
    let (ended, note) = serve_peer(alloc, routes, office, day, &mut peer, patience);
    listener.close(peer);
    Ok(Taken {
        answered: ended.is_ok(),
        note,
    })
}

/// Serves that number of connections on that day, one request each, one after the other. What fails in one
/// ends that one alone, and so does an `accept` whose connection was aborted, or that a signal
/// interrupted. Any other `accept` that fails ends the serving at once.
///
/// The log says where requests fail because memory ran out or the store failed, and that they succeed
/// again. A line that can't be written is dropped.
pub fn serve_connections<S: Alter, P: Peer, L: Listener<Stream = P>, E: Write>(
    alloc: Global,
    office: &mut Office<S>,
    day: Day,
    listener: &mut L,
    count: u32,
    patience: &Patience,
    log: &mut Counted<E>,
) -> Result<Served, AcceptFailed>
    ensures sum { IfOk result (λ served. served.answered + served.failed ≡ count) }
    ensures fewer { IfErr result (λ failure.
        failure.served.answered + failure.served.failed < count) }
    ensures served { (connections : List Connection) × (last : L)
        × CountsAs connections (served_of result)
        × IsAfterAll S.Store day connections office.old office.new
        × IsRun S.Store connections office.old office.new
        × TakesAll L.Listener
        (Treats (record { peer = P.Peer; reads = P.Reader.Read; writes = P.Writer.Write })
        patience.now) connections listener.old last
        × EndsAt L.Listener result last listener.new
        × IsLogged (all_lines result count connections)
        (log_of E.Write log.old) (log_of E.Write log.new) }
{
    let mut routes = None;
    let mut watch = Watch::new();
    let mut answered = 0;
    for taken in 0..count {
        match serve_next(alloc, &mut routes, office, day, listener, patience) {
            Ok(next) => {
                answered += u32::from(next.answered);
                watch = watch.tell(next.note, log);
            }
            Err(error) => {
                let served = Served {
                    answered,
                    failed: taken - answered,
                };
                return Err(AcceptFailed { served, error });
            }
        }
    }
    tell_end(count, log);
    Ok(Served {
        answered,
        failed: count - answered,
    })
}
