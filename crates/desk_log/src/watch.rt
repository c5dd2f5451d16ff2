//! What is logged as connections are served.

ghost use Rattle.std.specs.Prelude.{◌≡◌, ◌+◌, ◌<◌, ◌≤◌, ◌^◌};
ghost use Rattle.desk_log.specs.Logging.{IsLogged, log_of};
ghost use Rattle.desk_log.specs.Watching.{IsCounted, first_watch, is_told, lines_at, one_more, streak_after, streak_lines, streak_of, watch_after, with_streak};

use crate::lines::{failed_line, success_line};
use crate::note::{OfficeFailure, OfficeNote, OfficeOutcome, RequestKind};
use crate::telling::tell;
use desk_devices::Counted;
use std::io::Write;

/// The requests of one kind that failed since the last that succeeded.
#[derive(Clone, Copy)]
pub struct Streak {
    /// How many.
    pub count: u32,
    /// How the last of them failed, where there is one.
    pub last: OfficeFailure,
}

/// What is known as connections are served.
#[derive(Clone, Copy)]
pub struct Watch {
    /// How many were served.
    pub connections: u32,
    pub changes: Streak,
    pub readings: Streak,
}

/// Whether a failure that makes it this count in a row is logged.
fn is_told(count: u32) -> bool
    ensures { result ≡ is_told count }
{
    count == 1
        || count == 10
        || count == 100
        || count == 1_000
        || count == 10_000
        || count == 100_000
        || count == 1_000_000
        || count == 10_000_000
        || count == 100_000_000
        || count == 1_000_000_000
}

impl Streak {
    /// The streak after one more request.
    fn after(self, outcome: OfficeOutcome) -> Streak
        requires { self.count + 1 < 2 ^ 32 }
        ensures { result ≡ streak_after self outcome }
    {
        match outcome {
            OfficeOutcome::Failed(failure) => Streak {
                count: self.count + 1,
                last: failure,
            },
            OfficeOutcome::Refused => self,
            OfficeOutcome::Succeeded => Streak { count: 0, ..self },
        }
    }

    /// Logs one more request, where there is something to log.
    fn tell<E: Write>(
        self,
        number: u32,
        kind: RequestKind,
        outcome: OfficeOutcome,
        log: &mut Counted<E>,
    )
        requires { self.count + 1 < 2 ^ 32 }
        ensures { IsLogged (streak_lines number kind self outcome)
            (log_of E.Write log.old) (log_of E.Write log.new) }
    {
        match outcome {
            OfficeOutcome::Failed(failure) => {
                if is_told(self.count + 1) {
                    tell(&failed_line(number, kind, failure, self.count + 1), log);
                }
            }
            OfficeOutcome::Refused => {}
            OfficeOutcome::Succeeded => {
                if self.count != 0 {
                    tell(&success_line(number, kind, self.last, self.count), log);
                }
            }
        }
    }
}

impl Watch {
    /// Before the first connection.
    pub fn new() -> Watch
        ensures watch { result ≡ first_watch }
        ensures counted { IsCounted result }
    {
        let none = Streak {
            count: 0,
            last: OfficeFailure::Store,
        };
        Watch {
            connections: 0,
            changes: none,
            readings: none,
        }
    }

    fn streak_of(self, kind: RequestKind) -> Streak
        ensures { result ≡ streak_of kind self }
    {
        match kind {
            RequestKind::Change => self.changes,
            RequestKind::Reading => self.readings,
        }
    }

    fn with_streak(self, kind: RequestKind, streak: Streak) -> Watch
        ensures { result ≡ with_streak kind streak self }
    {
        match kind {
            RequestKind::Change => Watch {
                changes: streak,
                ..self
            },
            RequestKind::Reading => Watch {
                readings: streak,
                ..self
            },
        }
    }

    /// Logs one more connection, of which this is noted, where there is something to log.
    /// A line that can't be written is dropped.
    pub fn tell<E: Write>(self, note: Option<OfficeNote>, log: &mut Counted<E>) -> Watch
        requires counted { IsCounted self }
        requires room { self.connections + 1 < 2 ^ 32 }
        ensures watch { result ≡ watch_after self note }
        ensures counted { IsCounted result }
        ensures told { IsLogged (lines_at self note)
            (log_of E.Write log.old) (log_of E.Write log.new) }
    {
        let next = Watch {
            connections: self.connections + 1,
            ..self
        };
        match note {
            Some(note) => {
                let streak = self.streak_of(note.kind);
                streak.tell(next.connections, note.kind, note.outcome, log);
                next.with_streak(note.kind, streak.after(note.outcome))
            }
            None => next,
        }
    }
}
