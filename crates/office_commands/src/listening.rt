//! The desk at a listening socket.

ghost use Rattle.std.specs.Prelude.{◌≡◌, ℕ, IfErr, IfOk, List, OnOk, Some, string_bytes};
ghost use Rattle.std.specs.Io.KnownBytes.{Appends};
ghost use Rattle.std.specs.IoError.{error_kind};
ghost use Rattle.streams.specs.Writing.{IsCutShort};
ghost use Rattle.desk_listening.specs.Listening.{Connection};
ghost use Rattle.desk_devices.specs.Devices.{device_of};
ghost use Rattle.desk_log.specs.Logging.{log_of};
ghost use Rattle.office_commands.specs.Deeds.{AreDone, Deed, deeds_of_connections};
ghost use Rattle.office_commands.specs.Tasks.{AreServedFor, IsLogOf, IsPortFor, Listens, listening_text};
ghost use Rattle.office_stores.specs.Texts.{IsQuiet, IsUnaccepted, IsUnheard, IsUnsaid, device_failure};
ghost use Rattle.office_commands.specs.Traffic.{said_of};

use crate::printing::print;
use desk_listening::{Patience, Sockets, serve_connections};
use http_desk::Counted;
use office_core::Day;
use office_engine::Office;
use office_stores::{Cause, CommandFault, Done, StoreFault, failed_by};
use sqlite::Alter;
use std::alloc::{AllocError, Global};
use std::io::{Error, ErrorKind, Write};
use std::net::{Ipv4Addr, TcpListener};
use std::rt::HostRuntime;

/// A listening socket, and the port that is printed.
#[derive(Drop)]
struct Desk {
    listener: TcpListener,
    port: u16,
}

/// What failed with this error: memory, or else the device.
fn device_failure(error: &Error) -> StoreFault
    ensures { result ≡ device_failure (error_kind error.now) }
{
    match error.kind() {
        ErrorKind::OutOfMemory => StoreFault::Memory,
        _ => StoreFault::Device,
    }
}

/// A port that can't be had.
fn unheard(error: Error) -> CommandFault
    ensures { IsUnheard result }
{
    failed_by(device_failure(&error), Cause::Listen(error))
}

/// A connection that can't be accepted.
fn unaccepted(error: Error) -> CommandFault
    ensures { IsUnaccepted result }
{
    failed_by(device_failure(&error), Cause::Accept(error))
}

/// The port that is printed: the one that was asked for, or, where that is 0, the one that the machine
/// picked.
fn port_told(asked: u16, picked: u16) -> u16
    ensures { IsPortFor asked result }
{
    if asked == 0 { picked } else { asked }
}

/// The desk at that port of 127.0.0.1. With the port 0 the machine picks one.
fn desk_at(rt: &HostRuntime, port: u16) -> Result<Desk, CommandFault>
    ensures port { IfOk result (λ desk. IsPortFor port desk.port) }
    ensures unheard { IfErr result IsUnheard }
{
    let listener = match TcpListener::bind(rt, (Ipv4Addr::LOCALHOST, port)) {
        Ok(listener) => listener,
        Err(error) => return Err(unheard(error)),
    };
    match listener.local_addr() {
        Ok(address) => Ok(Desk {
            port: port_told(port, address.port()),
            listener,
        }),
        Err(error) => Err(unheard(error)),
    }
}

/// The line that says where the desk listens.
fn listening_line(alloc: Global, port: u16) -> Result<String, AllocError>
    ensures { IfOk result (λ text. string_bytes text ≡ listening_text port) }
{
    format!(in alloc; "listening {port}\n")
}

/// Says where the desk listens, and hands that on.
fn say_listening<O: Write>(
    alloc: Global,
    port: u16,
    out: &mut Counted<O>,
) -> Result<Done, CommandFault>
    ensures said { OnOk result
        (Appends (O.contents (device_of out.old)) (O.contents (device_of out.new))
        (listening_text port)) }
    ensures written { IsCutShort (listening_text port) (O.contents (device_of out.old))
        (O.contents (device_of out.new)) }
    ensures unsaid { IfErr result IsUnsaid }
{
    match listening_line(alloc, port) {
        Ok(line) => print(line.as_str(), out),
        Err(_) => Err(CommandFault::without_cause(StoreFault::Memory)),
    }
}

/// Serves that number of connections on that day, one after the other, and logs where requests fail.
fn serve_sockets<S: Alter, E: Write>(
    alloc: Global,
    office: &mut Office<S>,
    day: Day,
    desk: &Desk,
    count: u32,
    log: &mut Counted<E>,
) -> Result<Done, CommandFault>
    ensures serves { (served : List Connection) × AreServedFor result count served
        × AreDone S.Store (deeds_of_connections day served) office.old office.new
        × IsLogOf day result count served (log_of E.Write log.old) (log_of E.Write log.new) }
    ensures quiet { IfOk result IsQuiet }
    ensures unaccepted { IfErr result IsUnaccepted }
{
    let patience = Patience::default();
    let mut sockets = Sockets::new(alloc, &desk.listener);
    match serve_connections(alloc, office, day, &mut sockets, count, &patience, log) {
        Ok(_) => Ok(Done::quiet()),
        Err(failure) => Err(unaccepted(failure.error)),
    }
}

/// Says where the desk listens, and serves that number of connections on that day, one after the other.
fn serve_office<S: Alter, O: Write, E: Write>(
    alloc: Global,
    office: &mut Office<S>,
    day: Day,
    desk: &Desk,
    count: u32,
    out: &mut Counted<O>,
    log: &mut Counted<E>,
) -> Result<Done, CommandFault>
    ensures serves { (deeds : List Deed)
        × Listens (record { day = day; port = desk.now.port; count = count }) result deeds
        (said_of O.Write E.Write out.old log.old) (said_of O.Write E.Write out.new log.new)
        × AreDone S.Store deeds office.old office.new }
    ensures quiet { IfOk result IsQuiet }
{
    match say_listening(alloc, desk.port, out) {
        Ok(_) => serve_sockets(alloc, office, day, desk, count, log),
        Err(fault) => Err(fault),
    }
}

/// Takes the port, and then serves that number of connections there on that day, and logs where requests
/// fail. Where the port can't be had, nothing is said or served.
pub fn serve_at<S: Alter, O: Write, E: Write>(
    rt: &HostRuntime,
    office: &mut Office<S>,
    day: Day,
    port: u16,
    count: u32,
    out: &mut Counted<O>,
    log: &mut Counted<E>,
) -> Result<Done, CommandFault>
    ensures serves { (told : ℕ) × (deeds : List Deed) × IsPortFor port told
        × Listens (record { day = day; port = told; count = count }) result deeds
        (said_of O.Write E.Write out.old log.old) (said_of O.Write E.Write out.new log.new)
        × AreDone S.Store deeds office.old office.new }
    ensures quiet { IfOk result IsQuiet }
{
    match desk_at(rt, port) {
        Ok(desk) => serve_office(rt.alloc(), office, day, &desk, count, out, log),
        Err(fault) => Err(fault),
    }
}
