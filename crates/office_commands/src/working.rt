//! What is done with an open office, over any store.

ghost use Rattle.std.specs.Prelude.{◌≡◌, ◌∷◌, [], IfErr, IfOk, List, false};
ghost use Rattle.office_contents.specs.Faults as faults;
ghost use Rattle.office_commands.specs.Deeds.{AreDone, Deed};
ghost use Rattle.office_commands.specs.Tasks.{ComesOfAsk, ComesOfReplay, ReplaysAfter, install_of};
ghost use Rattle.office_commands.specs.Texts.{desk_failure, replay_failure};
ghost use Rattle.office_stores.specs.Texts.{IsQuiet, IsUninstalled, install_failure};
ghost use Rattle.office_commands.specs.Traffic.{traffic_of};

use crate::printing::flush;
use http_desk::{Counted, DeskFault, ReplayStop, replay, serve_one};
use office_core::{Day, Policy};
use office_engine::Office;
use office_stores::{Cause, CommandFault, Done, StoreFault, failed_by, table_fault};
use office_tables::TableFault;
use sqlite::Alter;
use std::alloc::Global;
use std::io::{Read, Write};

/// A policy that can't be installed.
fn install_failure(fault: TableFault) -> CommandFault
    ensures is { result ≡ install_failure fault }
    ensures failure { faults.IsFailure fault → IsUninstalled result }
{
    failed_by(table_fault(fault), Cause::Install(fault))
}

/// What a fault of the desk comes to.
fn desk_failure(fault: DeskFault) -> CommandFault
    ensures { result ≡ desk_failure fault }
{
    match fault {
        DeskFault::Read => failed_by(StoreFault::Device, Cause::Input),
        DeskFault::Write { .. } => failed_by(StoreFault::Device, Cause::Output),
        DeskFault::Memory { .. } => CommandFault::without_cause(StoreFault::Memory),
    }
}

/// Installs a policy instead of the one before: all of it, or nothing.
pub fn install_policy<S: Alter>(
    alloc: Global,
    office: &mut Office<S>,
    policy: &Policy,
) -> Result<Done, CommandFault>
    ensures done { AreDone S.Store (install_of result policy.now ∷ []) office.old office.new }
    ensures quiet { IfOk result IsQuiet }
    ensures failure { IfErr result IsUninstalled }
{
    match office.install(alloc, policy) {
        Ok(()) => Ok(Done::quiet()),
        Err(fault) => Err(install_failure(fault)),
    }
}

/// Answers the one request that the input gives, on that day.
pub fn ask_office<S: Alter, R: Read, O: Write>(
    alloc: Global,
    office: &mut Office<S>,
    day: Day,
    input: &mut Counted<R>,
    out: &mut Counted<O>,
) -> Result<Done, CommandFault>
    ensures asks { (deeds : List Deed) × ComesOfAsk day result deeds
        (traffic_of R.Read O.Write input.old out.old) (traffic_of R.Read O.Write input.new out.new)
        × AreDone S.Store deeds office.old office.new }
    ensures quiet { IfOk result IsQuiet }
{
    match serve_one(alloc, office, day, input, out) {
        Ok(()) => flush(out),
        Err(fault) => Err(desk_failure(fault)),
    }
}

/// What a replay that stopped comes to.
fn replay_failure(stop: ReplayStop) -> CommandFault
    ensures { result ≡ replay_failure stop }
{
    match stop {
        ReplayStop::BadRecord { index } => CommandFault::BadRecord { index },
        ReplayStop::Read => failed_by(StoreFault::Device, Cause::Input),
        ReplayStop::Write => failed_by(StoreFault::Device, Cause::Output),
        ReplayStop::Memory => CommandFault::without_cause(StoreFault::Memory),
    }
}

/// Answers the records that the input gives, one after the other, to its end.
fn replay_office<S: Alter, R: Read, O: Write>(
    alloc: Global,
    office: &mut Office<S>,
    input: &mut Counted<R>,
    out: &mut Counted<O>,
) -> Result<Done, CommandFault>
    ensures replays { (deeds : List Deed) × ComesOfReplay result deeds
        (traffic_of R.Read O.Write input.old out.old) (traffic_of R.Read O.Write input.new out.new)
        × AreDone S.Store deeds office.old office.new }
    ensures quiet { IfOk result IsQuiet }
{
    match replay(alloc, office, input, out) {
        Ok(_) => flush(out),
        Err(fault) => Err(replay_failure(fault.stop)),
    }
}

/// Installs the policy, where there is one, and then answers the records.
pub fn replay_after<S: Alter, R: Read, O: Write>(
    alloc: Global,
    office: &mut Office<S>,
    policy: Option<&Policy>,
    input: &mut Counted<R>,
    out: &mut Counted<O>,
) -> Result<Done, CommandFault>
    ensures replays { (deeds : List Deed) × ReplaysAfter policy.entry result deeds
        (traffic_of R.Read O.Write input.old out.old) (traffic_of R.Read O.Write input.new out.new)
        × AreDone S.Store deeds office.old office.new }
    ensures quiet { IfOk result IsQuiet }
{
    let Some(policy) = policy else {
        return replay_office(alloc, office, input, out);
    };
    match install_policy(alloc, office, policy) {
        Ok(_) => replay_office(alloc, office, input, out),
        Err(fault) => Err(fault),
    }
}
