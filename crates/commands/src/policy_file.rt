//! Reading a policy from the bytes of a file.

ghost use Rattle.std.specs.Prelude.{◌≡◌, ◌≢◌, ◌⊎◌, ℕ, IfErr, IfOk, IfSome, List, string_bytes};
ghost use Rattle.office_core.specs.declared.policy_fault.PolicyFault.TheVariants.{Memory};
ghost use Rattle.commands.specs.Explaining.{HasFault, SpellsPolicyBytes, bad_policy_text};
ghost use Rattle.commands.specs.PolicyFiles.{IsAllOf, IsRead, IsPolicyRefused};

use crate::trouble::Trouble;
use fault_words::policy_reason;
use office_core::{Policy, PolicyFault, read_policy};
use std::alloc::{AllocError, Global};
use std::io::Read;

/// Why the bytes of a file are no policy: their first fault, and what is printed of it to standard error, in
/// lines with their ends.
#[derive(Debug, Drop)]
pub struct RefusedPolicy {
    pub fault: PolicyFault,
    pub reason: String,
}

impl RefusedPolicy {
    /// The line of standard output that names the fault, with its end.
    pub fn line(&self, alloc: Global) -> Result<String, AllocError>
        ensures { IfOk result (λ text. string_bytes text ≡ bad_policy_text self.now.fault) }
    {
        let fault = self.fault;
        format!(in alloc; "policy {fault}\n")
    }
}

/// What is refused for this fault.
fn refused_policy(
    alloc: Global,
    bytes: &[u8],
    fault: PolicyFault,
) -> Result<RefusedPolicy, AllocError>
    requires fault { HasFault bytes.now fault }
    requires known { fault ≢ Memory }
    ensures { IfOk result (IsPolicyRefused bytes.now) }
{
    let reason = policy_reason(alloc, bytes, fault)?;
    Ok(RefusedPolicy { fault, reason })
}

/// The policy that the bytes are, or their first fault.
fn policy_of_bytes(alloc: Global, bytes: &[u8]) -> Result<Policy, PolicyFault>
    ensures spells { IfOk result (SpellsPolicyBytes bytes.now) }
    ensures refused { IfErr result (λ fault. (fault ≡ Memory) ⊎ HasFault bytes.now fault) }
{
    match str::from_utf8(bytes) {
        Ok(text) => read_policy(alloc, text),
        Err(_) => Err(PolicyFault::NotToml),
    }
}

/// The policy that the bytes spell, or why they are none.
pub(crate) fn policy_in(
    alloc: Global,
    bytes: &[u8],
) -> Result<Result<Policy, RefusedPolicy>, AllocError>
    ensures { IfOk result (IsRead bytes.now) }
{
    match policy_of_bytes(alloc, bytes) {
        Ok(policy) => Ok(Ok(policy)),
        Err(PolicyFault::Memory) => Err(AllocError),
        Err(fault) => Ok(Err(refused_policy(alloc, bytes, fault)?)),
    }
}

/// Reads all that the reader gives, to its end: the policy that the bytes spell, or why they are none.
pub fn read_policy_from<R: Read>(
    alloc: Global,
    policy: &mut R,
) -> Result<Result<Policy, RefusedPolicy>, Trouble>
    // What is read is all that the reader gives.
    ensures read { IfOk result (λ read. (bytes : List ℕ)
        × IsAllOf (R.remaining policy.old) (R.remaining policy.new) bytes × IsRead bytes read) }
    ensures given { IfSome (R.remaining policy.old) (λ given. IfOk result (IsRead given)) }
{
    let bytes = streams::read_whole(alloc, policy)?;
    Ok(policy_in(alloc, bytes.as_slice())?)
}
