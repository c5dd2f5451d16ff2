//! The commands on a store.

ghost use Rattle.std.specs.Prelude.{◌≡◌, Err, IfErr, IfOk, OnOk, Some, false, option_map, string_bytes};
ghost use Rattle.std.specs.Io.KnownBytes.{Appends};
ghost use Rattle.sqlite.specs.WalFiles.{image_at};
ghost use Rattle.commands.specs.Explaining.{bad_policy_text};
ghost use Rattle.streams.specs.Writing.{IsCutShort};
ghost use Rattle.commands.specs.declared.ending.Ending.TheVariants.{Refused};
ghost use Rattle.desk_devices.specs.Devices.{device_of};
ghost use Rattle.office_commands.specs.Policies.{installed_text};
ghost use Rattle.office_commands.specs.Tasks.{reads_input, writes_log};
ghost use Rattle.office_stores.specs.Texts.{IsQuiet, IsUnsaid};
ghost use Rattle.office_commands.specs.Traffic.{upshot_of};
ghost use Rattle.office_commands.specs.Works.{ComesOfNamed, ComesOfWork, InstallsAndSays, InstallsFrom, IsUnreadFirst, ReplaysFrom};
ghost use Rattle.office_commands.specs.declared.work.Work.TheVariants as works;

use crate::policy_file::{PolicyFile, open_policy, policy_from};
use crate::printing::{installed_line, print};
use crate::stores::in_store;
use crate::work::Work;
use commands::{Ending, RefusedPolicy};
use http_desk::Counted;
use office_core::Policy;
use office_stores::{CommandFault, Done, StoreFault};
use sqlite::{FileFrom, Start};
use sqlite_disk::Disk;
use std::alloc::Global;
use std::io::{Read, Write};
use std::rt::{Files, HostRuntime};

/// Says that the policy was installed.
fn say_installed<O: Write>(
    alloc: Global,
    policy: &Policy,
    out: &mut Counted<O>,
) -> Result<Done, CommandFault>
    ensures said { OnOk result
        (Appends (O.contents (device_of out.old)) (O.contents (device_of out.new))
        (installed_text policy.now)) }
    ensures written { IsCutShort (installed_text policy.now) (O.contents (device_of out.old))
        (O.contents (device_of out.new)) }
    ensures quiet { IfOk result IsQuiet }
    ensures unsaid { IfErr result IsUnsaid }
{
    match installed_line(alloc, policy) {
        Ok(line) => print(line.as_str(), out),
        Err(_) => Err(CommandFault::without_cause(StoreFault::Memory)),
    }
}

/// Prints the fault of a policy that is refused, and hands on why.
fn say_refused<O: Write>(
    alloc: Global,
    refused: RefusedPolicy,
    out: &mut Counted<O>,
) -> Result<Done, CommandFault>
    ensures printed { OnOk result
        (Appends (O.contents (device_of out.old)) (O.contents (device_of out.new))
        (bad_policy_text refused.fault)) }
    ensures written { IsCutShort (bad_policy_text refused.fault) (O.contents (device_of out.old))
        (O.contents (device_of out.new)) }
    ensures reason { IfOk result (λ done.
        option_map string_bytes done.reason ≡ Some (string_bytes refused.reason)) }
    ensures ending { IfOk result (λ done. done.ending ≡ Refused) }
    ensures unsaid { IfErr result IsUnsaid }
{
    let Ok(line) = refused.line(alloc) else {
        return Err(CommandFault::without_cause(StoreFault::Memory));
    };
    match print(line.as_str(), out) {
        Ok(_) => Ok(Done {
            reason: Some(refused.reason),
            ending: Ending::Refused,
        }),
        Err(fault) => Err(fault),
    }
}

/// Installs a policy, and then says so.
fn install_and_say<S: Start, R: Read, O: Write, E: Write>(
    rt: &HostRuntime,
    start: &mut Option<S>,
    store: &str,
    policy: &Policy,
    input: &mut Counted<R>,
    out: &mut Counted<O>,
    log: &mut Counted<E>,
) -> Result<Done, CommandFault>
    ensures installs { InstallsAndSays ⟦<FileFrom<S> as Disk>⟧
        (record { name = store.now; first = image_at S.Start }) (start.new ≡ start.old)
        (upshot_of R.Read O.Write E.Write result (input.old, out.old, log.old)
        (input.new, out.new, log.new))
        policy.entry }
    ensures left { input.new ≡ input.old }
    ensures unlogged { log.new ≡ log.old }
{
    match in_store(rt, start, store, &Work::Policy { policy }, input, out, log) {
        Ok(_) => say_installed(rt.alloc(), policy, out),
        Err(fault) => Err(fault),
    }
}

/// Installs the policy that the file gives, and then says so. One that is refused leaves the store alone.
fn install_from<S: Start, P: Read, R: Read, O: Write, E: Write>(
    rt: &HostRuntime,
    start: &mut Option<S>,
    store: &str,
    file: &mut P,
    input: &mut Counted<R>,
    out: &mut Counted<O>,
    log: &mut Counted<E>,
) -> Result<Done, CommandFault>
    ensures comes { InstallsFrom ⟦<FileFrom<S> as Disk>⟧
        (record { name = store.now; first = image_at S.Start }) (start.new ≡ start.old)
        (upshot_of R.Read O.Write E.Write result (input.old, out.old, log.old)
        (input.new, out.new, log.new))
        (P.remaining file.old) }
    ensures left { input.new ≡ input.old }
    ensures unlogged { log.new ≡ log.old }
{
    match policy_from(rt.alloc(), file) {
        Ok(Ok(policy)) => install_and_say(rt, start, store, &policy, input, out, log),
        Ok(Err(refused)) => say_refused(rt.alloc(), refused, out),
        Err(fault) => Err(fault),
    }
}

/// `policy STORE POLICY`: installs the policy, and then says so. The policy is read before that.
fn install_in<F: Files, S: Start, R: Read, O: Write, E: Write>(
    rt: &HostRuntime,
    start: &mut Option<S>,
    store: &str,
    named: PolicyFile<'_, F>,
    input: &mut Counted<R>,
    out: &mut Counted<O>,
    log: &mut Counted<E>,
) -> Result<Done, CommandFault>
    ensures comes { ComesOfNamed ⟦<F::File as Read>⟧
        (IsUnreadFirst (start.new ≡ start.old)
        (upshot_of R.Read O.Write E.Write result (input.old, out.old, log.old)
        (input.new, out.new, log.new)))
        (InstallsFrom ⟦<FileFrom<S> as Disk>⟧
        (record { name = store.now; first = image_at S.Start }) (start.new ≡ start.old)
        (upshot_of R.Read O.Write E.Write result (input.old, out.old, log.old)
        (input.new, out.new, log.new))) }
    ensures left { input.new ≡ input.old }
    ensures unlogged { log.new ≡ log.old }
{
    match open_policy(named) {
        Ok(mut file) => install_from(rt, start, store, &mut file, input, out, log),
        Err(fault) => Err(fault),
    }
}

/// Installs the policy that the file gives, and answers the records that the input gives. A policy that is
/// refused leaves the store and the input alone.
fn replay_from<S: Start, P: Read, R: Read, O: Write, E: Write>(
    rt: &HostRuntime,
    start: &mut Option<S>,
    store: &str,
    file: &mut P,
    input: &mut Counted<R>,
    out: &mut Counted<O>,
    log: &mut Counted<E>,
) -> Result<Done, CommandFault>
    ensures comes { ReplaysFrom ⟦<FileFrom<S> as Disk>⟧
        (record { name = store.now; first = image_at S.Start }) (start.new ≡ start.old)
        (upshot_of R.Read O.Write E.Write result (input.old, out.old, log.old)
        (input.new, out.new, log.new))
        (P.remaining file.old) }
    ensures unlogged { log.new ≡ log.old }
    ensures quiet { IfOk result IsQuiet }
{
    match policy_from(rt.alloc(), file) {
        Ok(Ok(policy)) => {
            let policy = Some(&policy);
            in_store(rt, start, store, &Work::Replay { policy }, input, out, log)
        }
        Ok(Err(refused)) => Err(CommandFault::Policy(refused)),
        Err(fault) => Err(fault),
    }
}

/// `replay --policy POLICY STORE`: installs the policy, and answers the records that the input gives. The
/// policy is read before that.
fn replay_under<F: Files, S: Start, R: Read, O: Write, E: Write>(
    rt: &HostRuntime,
    start: &mut Option<S>,
    store: &str,
    named: PolicyFile<'_, F>,
    input: &mut Counted<R>,
    out: &mut Counted<O>,
    log: &mut Counted<E>,
) -> Result<Done, CommandFault>
    ensures comes { ComesOfNamed ⟦<F::File as Read>⟧
        (IsUnreadFirst (start.new ≡ start.old)
        (upshot_of R.Read O.Write E.Write result (input.old, out.old, log.old)
        (input.new, out.new, log.new)))
        (ReplaysFrom ⟦<FileFrom<S> as Disk>⟧
        (record { name = store.now; first = image_at S.Start }) (start.new ≡ start.old)
        (upshot_of R.Read O.Write E.Write result (input.old, out.old, log.old)
        (input.new, out.new, log.new))) }
    ensures unlogged { log.new ≡ log.old }
    ensures quiet { IfOk result IsQuiet }
{
    match open_policy(named) {
        Ok(mut file) => replay_from(rt, start, store, &mut file, input, out, log),
        Err(fault) => Err(fault),
    }
}

/// `replay [--policy POLICY] STORE`: answers the records that the input gives, once the policy is installed,
/// where one is named.
fn replay_in<S: Start, R: Read, O: Write, E: Write>(
    rt: &HostRuntime,
    start: &mut Option<S>,
    store: &str,
    policy: Option<&str>,
    input: &mut Counted<R>,
    out: &mut Counted<O>,
    log: &mut Counted<E>,
) -> Result<Done, CommandFault>
    ensures comes { ComesOfWork ⟦<FileFrom<S> as Disk>⟧
        (record { name = store.now; first = image_at S.Start }) (works.Replay policy.entry)
        (start.new ≡ start.old)
        (upshot_of R.Read O.Write E.Write result (input.old, out.old, log.old)
        (input.new, out.new, log.new)) }
    ensures unlogged { log.new ≡ log.old }
{
    match policy {
        Some(path) => {
            let named = PolicyFile { files: rt, path };
            replay_under(rt, start, store, named, input, out, log)
        }
        None => in_store(
            rt,
            start,
            store,
            &Work::Replay { policy: None },
            input,
            out,
            log,
        ),
    }
}

/// Does the work on the store; `:memory:` is a new office in memory. A file is opened by `start`, which is
/// taken for that, and closed again.
///
/// Before the store is opened the policy's file is read, where one is named. The input is read, and the
/// output written, once the store is open.
pub fn perform<S: Start, R: Read, O: Write, E: Write>(
    rt: &HostRuntime,
    start: &mut Option<S>,
    store: &str,
    work: &Work<&str>,
    input: &mut Counted<R>,
    out: &mut Counted<O>,
    log: &mut Counted<E>,
) -> Result<Done, CommandFault>
    ensures comes { ComesOfWork ⟦<FileFrom<S> as Disk>⟧
        (record { name = store.now; first = image_at S.Start }) work.now (start.new ≡ start.old)
        (upshot_of R.Read O.Write E.Write result (input.old, out.old, log.old)
        (input.new, out.new, log.new)) }
    ensures left { reads_input work.now ≡ false → input.new ≡ input.old }
    ensures unlogged { writes_log work.now ≡ false → log.new ≡ log.old }
{
    match *work {
        Work::Policy { policy: path } => {
            let named = PolicyFile { files: rt, path };
            install_in(rt, start, store, named, input, out, log)
        }
        Work::Ask { day } => in_store(rt, start, store, &Work::Ask { day }, input, out, log),
        Work::Replay { policy } => replay_in(rt, start, store, policy, input, out, log),
        Work::Serve { day, port, count } => {
            let task = Work::Serve { day, port, count };
            in_store(rt, start, store, &task, input, out, log)
        }
    }
}
