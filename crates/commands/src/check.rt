//! What `check` says of a transfer form.

ghost use Rattle.std.specs.Prelude.{◌≡◌, ◌<◌, ◌≤◌, ℕ, IfOk, IfSome, IsErr, List, length, Some, string_bytes, take};
ghost use Rattle.bag_text.specs.TransferForm.{File, IsBag, IsFormOf, max_form, set_text};
ghost use Rattle.bag_text.specs.TransferFaults.{FaultIs};
ghost use Rattle.bag_text.specs.declared.declaration.Version.{Version};
ghost use Rattle.bag_text.specs.declared.set_fault.SetFault.{SetFault};
ghost use Rattle.bag_check.specs.Validity.{Valid, report_of};
ghost use Rattle.bag_check.specs.Faults.{Fault, FirstFault};
ghost use Rattle.bag_check.specs.Answers.{report_seen, named_fault};
ghost use Rattle.commands.specs.Checking.{AreFirstOf, SaysOfBytes, SaysInvalid, SaysOfBag, SaysTooLong, SaysUnreadable, SaysValid, bytes_to_read};
ghost use Rattle.bag_check.specs.declared.fault.BagFault.TheVariants.{Memory};
ghost use Rattle.bag_text.specs.declared.set_fault.SetFault.TheVariants as sets;

use crate::ending::Ending;
use crate::outcome::Outcome;
use crate::trouble::Trouble;
use bag_check::{BagFault, BagReport, check_bag};
use bag_text::{BagSet, MAX_FORM, SetFault, read_bagset};
use fault_words::{TooLong, bag_lines, form_lines, hint_for};
use std::alloc::{AllocError, Global};
use std::fmt::Write;
use std::io::Read;

/// The line of a valid bag.
fn valid_outcome(alloc: Global, report: BagReport) -> Result<Outcome, AllocError>
    ensures { IfOk result (SaysValid (report_seen report)) }
{
    let BagReport {
        version,
        files,
        bytes,
        manifests,
    } = report;
    let mut text = format!(in alloc; "valid {version}")?;
    write!(text, " files {files}")?;
    write!(text, " bytes {bytes}")?;
    write!(text, " manifests {manifests}\n")?;
    Ok(Outcome {
        text,
        reason: None,
        ending: Ending::Accepted,
    })
}

/// The line of a bag that isn't valid.
fn invalid_outcome(
    alloc: Global,
    bag: &BagSet<'_>,
    fault: &BagFault<'_>,
) -> Result<Outcome, AllocError>
    ensures memory { fault.now ≡ Memory → IsErr result }
    ensures says { IfOk result (λ outcome. (first : Fault) → named_fault fault.now ≡ Some first
        → SaysInvalid bag.now first outcome) }
{
    if matches!(fault, BagFault::Memory) {
        return Err(AllocError);
    }
    let text = format!(in alloc; "invalid {fault}\n")?;
    Ok(Outcome {
        text,
        reason: Some(bag_lines(alloc, bag, fault)?),
        ending: Ending::Refused,
    })
}

/// The line of bytes that are no form.
fn unreadable_outcome(alloc: Global, fault: SetFault, bytes: &[u8]) -> Result<Outcome, AllocError>
    ensures memory { fault ≡ sets.Memory → IsErr result }
    ensures says { IfOk result (SaysUnreadable bytes.now fault) }
{
    if fault == SetFault::Memory {
        return Err(AllocError);
    }
    let text = format!(in alloc; "unreadable {fault}\n")?;
    Ok(Outcome {
        text,
        reason: Some(form_lines(alloc, fault, hint_for(fault, bytes))?),
        ending: Ending::Refused,
    })
}

/// The line of too many bytes.
fn too_long_outcome(alloc: Global) -> Result<Outcome, AllocError>
    ensures { IfOk result SaysTooLong }
{
    let text = String::from_str(alloc, "unreadable SIZE\n")?;
    Ok(Outcome {
        text,
        reason: Some(format!(in alloc; "{TooLong}\n")?),
        ending: Ending::Refused,
    })
}

/// What is said of a bag.
fn bag_outcome(alloc: Global, bag: &BagSet<'_>) -> Result<Outcome, AllocError>
    ensures { IfOk result (SaysOfBag bag.now) }
{
    match check_bag(alloc, bag) {
        Ok(report) => valid_outcome(alloc, report),
        Err(fault) => invalid_outcome(alloc, bag, &fault),
    }
}

/// What is said of the bytes.
fn bytes_outcome(alloc: Global, bytes: &[u8]) -> Result<Outcome, AllocError>
    ensures { IfOk result (SaysOfBytes bytes.now) }
{
    if bytes.len() as u64 > MAX_FORM {
        return too_long_outcome(alloc);
    }
    match read_bagset(alloc, bytes) {
        Ok(bag) => bag_outcome(alloc, &bag),
        Err(fault) => unreadable_outcome(alloc, fault, bytes),
    }
}

/// Judges the bytes that were read: the line that `check` prints, what is printed to standard error, and how
/// it ends.
pub fn check_outcome(alloc: Global, bytes: &[u8]) -> Result<Outcome, AllocError>
    // What is said is so.
    ensures says { IfOk result (SaysOfBytes bytes.now) }

    // Too many bytes are refused as such.
    ensures too_long { max_form < length bytes.now → IfOk result SaysTooLong }

    // The form of a valid bag is accepted, unless memory runs out; that nothing else is follows from
    // what is said.
    ensures valid { (files : List File) (v : Version) → IsFormOf files bytes.now → Valid files v
        → IfOk result (SaysValid (report_of v files)) }
    // A bag that isn't valid is refused with its first fault, and standard error has it in words, by
    // what is in the bag.
    ensures invalid { (files : List File) (fault : Fault)
        → IsFormOf files bytes.now → FirstFault files fault
        → IfOk result (SaysInvalid files fault) }
    // Bytes that are no form are refused with their fault, likewise.
    ensures unreadable { (fault : SetFault)
        → length bytes.now ≤ max_form → FaultIs bytes.now fault
        → IfOk result (SaysUnreadable bytes.now fault) }
{
    bytes_outcome(alloc, bytes)
}

/// Judges the bag whose form the reader gives: reads 16,777,217 bytes at most, so that a longer form is
/// recognized by one byte too many.
pub fn judge<R: Read>(alloc: Global, form: &mut R) -> Result<Outcome, Trouble>
    // What is said is so of the first bytes that the reader gives.
    ensures says { IfOk result (λ outcome. (bytes : List ℕ)
        × AreFirstOf (R.remaining form.old) (R.remaining form.new) bytes
        × SaysOfBytes bytes outcome) }
    ensures given { IfSome (R.remaining form.old) (λ given.
        IfOk result (SaysOfBytes (take bytes_to_read given))) }
{
    let bytes = streams::read_at_most(alloc, MAX_FORM + 1, form)?;
    Ok(check_outcome(alloc, bytes.as_slice())?)
}
