//! What is printed on standard output.

ghost use Rattle.std.specs.Prelude.{◌≡◌, IfErr, IfOk, OnOk, Some, string_bytes};
ghost use Rattle.std.specs.Io.KnownBytes.{Appends, Keeps};
ghost use Rattle.streams.specs.Writing.{IsCutShort};
ghost use Rattle.desk_devices.specs.Devices.{device_of};
ghost use Rattle.office_commands.specs.Policies.{installed_text};
ghost use Rattle.office_stores.specs.Texts.{IsQuiet, IsUnsaid};
ghost use Rattle.office_stores.specs.declared.fault.Cause.TheVariants.{Output};
ghost use Rattle.office_stores.specs.declared.fault.CommandFault.TheVariants.{Failed};
ghost use Rattle.office_stores.specs.declared.fault.StoreFault.TheVariants.{Device};

use desk_devices::Counted;
use office_core::Policy;
use office_stores::{Cause, CommandFault, Done, StoreFault, failed_by};
use std::alloc::{AllocError, Global};
use std::io::Write;
use streams::write_text;

/// Hands on what was written.
pub fn flush<O: Write>(out: &mut Counted<O>) -> Result<Done, CommandFault>
    ensures same { Keeps (O.contents (device_of out.old)) (O.contents (device_of out.new)) }
    ensures fault { IfErr result (λ fault. fault ≡ Failed Device (Some Output)) }
    ensures quiet { IfOk result IsQuiet }
{
    match out.flush() {
        Ok(()) => Ok(Done::quiet()),
        Err(_) => Err(failed_by(StoreFault::Device, Cause::Output)),
    }
}

/// Prints a text, which ends with a line's end. Where that fails, a beginning of it is written.
pub fn print<O: Write>(text: &str, out: &mut Counted<O>) -> Result<Done, CommandFault>
    ensures whole { OnOk result
        (Appends (O.contents (device_of out.old)) (O.contents (device_of out.new)) text.now) }
    ensures written { IsCutShort text.now (O.contents (device_of out.old))
        (O.contents (device_of out.new)) }
    ensures quiet { IfOk result IsQuiet }
    ensures unsaid { IfErr result IsUnsaid }
{
    match write_text(text, out) {
        Ok(()) => Ok(Done::quiet()),
        Err(_) => Err(failed_by(StoreFault::Device, Cause::Output)),
    }
}

/// The line of a policy that was installed.
pub fn installed_line(alloc: Global, policy: &Policy) -> Result<String, AllocError>
    ensures { IfOk result (λ text. string_bytes text ≡ installed_text policy.now) }
{
    let rules = policy.rules().len();
    let callers = policy.callers().len();
    format!(in alloc; "installed {rules} rules {callers} callers\n")
}
