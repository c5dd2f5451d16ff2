//! What a command does on a store.

ghost use Rattle.std.specs.Prelude.{◌≡◌};
ghost use Rattle.office_commands.specs.Tasks.{makes_office};

use office_core::Day;

/// What a command does on a store. The policy is named by its file, or has been read from it.
#[derive(Clone, Copy)]
pub enum Work<P> {
    /// Install the policy, and make the office where there is none.
    Policy { policy: P },
    /// Answer the one request that the input gives, on that day.
    Ask { day: Day },
    /// Answer the records of requests that the input gives. Where there is a policy, it is installed first,
    /// and the office made where there is none.
    Replay { policy: Option<P> },
    /// Serve this number of connections to this port of 127.0.0.1, one after the other, on that day. With the
    /// port 0 the machine picks one.
    Serve { day: Day, port: u16, count: u32 },
}

impl<P> Work<P> {
    /// Whether the office is made where there is none: only where a policy comes with the work.
    pub(crate) fn makes_office(&self) -> bool
        ensures { result ≡ makes_office self.now }
    {
        matches!(self, Work::Policy { .. } | Work::Replay { policy: Some(_) })
    }
}
