//! What every office judges: bags that are deposited, bags that are checked again, and the refusal of each
//! verdict.

ghost use Rattle.std.specs.Prelude.{◌≡◌, Ok, Err, IfOk, MatchResult, false, is_none};
ghost use Rattle.bag_text.specs.FaultTexts.{set_fault_text};
ghost use Rattle.bag_text.specs.TransferForm.{IsBag, set_text};
ghost use Rattle.bag_text.specs.TransferReading.{set_of};
ghost use Rattle.bag_check.specs.Answers.{named_fault, printed_fault};
ghost use Rattle.bag_check.specs.Digests.{digests_of};
ghost use Rattle.office_history.specs.Answers.{audit_report};
ghost use Rattle.office_history.specs.Bags as bags;
ghost use Rattle.office_history.specs.Bags.{IsReported, bag_of, if_valid};
ghost use Rattle.office_history.specs.Refusals.{refusal_of};

use bag_check::{BagFault, BagReport, check_and_digest, check_bag};
use bag_text::{BagSet, SetFault, read_bagset};
use office_core::{AuditReport, Due, FaultText, Refusal, Verdict};
use std::alloc::{AllocError, Global};

/// The text of a fault of a list of files or of a transfer form.
pub fn set_fault_text(alloc: Global, fault: SetFault) -> Result<FaultText, AllocError>
    ensures { IfOk result (λ text. text ≡ set_fault_text fault) }
{
    let text = format!(in alloc; "{fault}")?;
    Ok(FaultText::of(text))
}

fn fault_text(alloc: Global, fault: &BagFault<'_>) -> Result<FaultText, AllocError>
    ensures { IfOk result (λ text. text ≡ printed_fault fault.now) }
{
    let text = format!(in alloc; "{fault}")?;
    Ok(FaultText::of(text))
}

fn is_memory(fault: &BagFault<'_>) -> bool
    ensures { result ≡ is_none (named_fault fault.now) }
{
    matches!(fault, BagFault::Memory)
}

/// The text of a fault of a bag. Fails where memory ran out, then or before.
fn told_fault(alloc: Global, fault: &BagFault<'_>) -> Result<FaultText, AllocError>
    ensures text { IfOk result (λ text. text ≡ printed_fault fault.now) }
    ensures named { IfOk result (λ text. is_none (named_fault fault.now) ≡ false) }
{
    if is_memory(fault) {
        return Err(AllocError);
    }
    fault_text(alloc, fault)
}

/// What is counted in a valid bag, or the text of the first fault of another.
pub fn report_on(
    alloc: Global,
    bag: &BagSet<'_>,
) -> Result<Result<BagReport, FaultText>, AllocError>
    ensures { IfOk result (λ judged. IsReported judged (bags.report_on bag.now)) }
{
    match check_bag(alloc, bag) {
        Ok(report) => Ok(Ok(report)),
        Err(fault) => Ok(Err(told_fault(alloc, &fault)?)),
    }
}

/// What an audit says of a bag.
pub fn audit(alloc: Global, bag: &BagSet<'_>) -> Result<AuditReport, AllocError>
    ensures { IfOk result (λ report. report ≡ audit_report (bags.report_on bag.now)) }
{
    match report_on(alloc, bag)? {
        Ok(report) => Ok(AuditReport::Valid(report)),
        Err(fault) => Ok(AuditReport::Invalid(fault)),
    }
}

/// The SHA-256 of each file of a valid bag, or the text of the first fault of another.
fn digests_on(
    alloc: Global,
    bag: &BagSet<'_>,
) -> Result<Result<Vec<[u8; 32]>, FaultText>, AllocError>
    ensures digests { IfOk result (λ judged. IfOk judged (λ digests.
        digests.items ≡ digests_of bag.now)) }
    ensures valid { IfOk result (λ judged. MatchResult judged
        (λ _. if_valid bag.now (bags.report_on bag.now) ≡ Ok bag.now)
        (λ text. if_valid bag.now (bags.report_on bag.now) ≡ Err text)) }
{
    match check_and_digest(alloc, bag) {
        Ok(digested) => Ok(Ok(digested.digests)),
        Err(fault) => Ok(Err(told_fault(alloc, &fault)?)),
    }
}

/// A valid bag, and the SHA-256 of each of its files, in their order.
#[derive(Drop)]
pub struct DigestedBag<'a> {
    pub bag: BagSet<'a>,
    pub digests: Vec<[u8; 32]>,
}

/// The bag whose transfer form the text is, as slices of it, with the SHA-256 of each file, if it is that of a
/// valid bag, or the text of the first fault.
pub fn digested_bag(
    alloc: Global,
    text: &[u8],
) -> Result<Result<DigestedBag<'_>, FaultText>, AllocError>
    ensures valid { IfOk result (λ found. MatchResult found
        (λ digested. bag_of text.now ≡ Ok digested.bag)
        (λ fault. bag_of text.now ≡ Err fault)) }
    ensures read { IfOk result (λ found. IfOk found (λ digested.
        set_of text.now ≡ Ok digested.bag)) }
    ensures form { IfOk result (λ found. IfOk found (λ digested.
        text.now ≡ set_text digested.bag)) }
    ensures is_bag { IfOk result (λ found. IfOk found (λ digested. IsBag digested.bag)) }
    ensures digests { IfOk result (λ found. IfOk found (λ digested.
        digested.digests.items ≡ digests_of digested.bag)) }
{
    match read_bagset(alloc, text) {
        Err(SetFault::Memory) => Err(AllocError),
        Err(fault) => Ok(Err(set_fault_text(alloc, fault)?)),
        Ok(bag) => match digests_on(alloc, &bag)? {
            Ok(digests) => Ok(Ok(DigestedBag { bag, digests })),
            Err(fault) => Ok(Err(fault)),
        },
    }
}

/// The refusal that a verdict is; none where it allows.
pub fn refusal_of(verdict: Verdict) -> Option<Refusal>
    ensures { result ≡ refusal_of verdict }
{
    match verdict {
        Verdict::DeniedByRule(rule) => Some(Refusal::DeniedByRule(rule)),
        Verdict::DeniedByDefault => Some(Refusal::DeniedByDefault),
        Verdict::Gone(day) => Some(Refusal::Gone(day)),
        Verdict::Held(hold) => Some(Refusal::Held(hold)),
        Verdict::NotDue(date) => Some(Refusal::NotDue(Due::On(date))),
        Verdict::Permanent => Some(Refusal::NotDue(Due::Never)),
        Verdict::Allow => None,
    }
}
