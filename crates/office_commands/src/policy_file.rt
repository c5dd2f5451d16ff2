//! The policy's file.

ghost use Rattle.std.specs.Prelude.{◌≡◌, ℕ, IfErr, IfOk, IfSome, List, None, Some};
ghost use Rattle.commands.specs.PolicyFiles.{IsRead};
ghost use Rattle.commands.specs.declared.trouble.Trouble.TheVariants as troubles;
ghost use Rattle.office_commands.specs.Policies.{IsUnread};

use commands::{RefusedPolicy, Trouble, read_policy_from};
use office_core::Policy;
use office_stores::{Cause, CommandFault, StoreFault, failed_by};
use std::alloc::Global;
use std::fs;
use std::io::Read;
use std::rt::Files;

/// A file that could not be read.
fn unread(trouble: Trouble) -> CommandFault
    ensures { IsUnread result }
{
    match trouble {
        Trouble::Device(error) => failed_by(StoreFault::Device, Cause::Policy(error)),
        Trouble::Memory => CommandFault::without_cause(StoreFault::Memory),
    }
}

/// The file that a policy is read from: its path, and the files among which it is.
pub struct PolicyFile<'a, F> {
    pub files: &'a F,
    pub path: &'a str,
}

/// Opens the file.
pub fn open_policy<F: Files>(named: PolicyFile<'_, F>) -> Result<F::File, CommandFault>
    ensures { IfErr result IsUnread }
{
    let PolicyFile { files, path } = named;
    match fs::open(files, path) {
        Ok(file) => Ok(file),
        Err(error) => Err(unread(Trouble::from(error))),
    }
}

/// The policy in the file, or why it is refused.
pub fn policy_from<P: Read>(
    alloc: Global,
    file: &mut P,
) -> Result<Result<Policy, RefusedPolicy>, CommandFault>
    ensures read { IfOk result (λ read. (bytes : List ℕ)
        × IfSome (P.remaining file.old) (λ all. bytes ≡ all) × IsRead bytes read) }
    ensures unread { IfErr result IsUnread }
{
    match read_policy_from(alloc, file) {
        Ok(read) => Ok(read),
        Err(trouble) => Err(unread(trouble)),
    }
}
