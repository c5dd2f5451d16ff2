//! Bags that are deposited, and bags that are checked again.

ghost use Rattle.std.specs.Prelude.{◌≡◌, IfOk};
ghost use Rattle.office_history.specs.Bags.{bag_of, report_on};
ghost use Rattle.office_history.specs.Answers.{audit_report};

use crate::stored::StoredBag;
use office_core::{AuditReport, FaultText};
use office_history::judging::{self, digested_bag};
use std::alloc::{AllocError, Global};

/// The bag whose transfer form the text is, if it is that of a valid bag, or the text of the first
/// fault.
pub fn bag_of(alloc: Global, text: &[u8]) -> Result<Result<StoredBag, FaultText>, AllocError>
    ensures { IfOk result (λ bag. bag ≡ bag_of text.now) }
{
    match digested_bag(alloc, text)? {
        Ok(digested) => Ok(Ok(StoredBag::of(alloc, &digested.bag, text)?)),
        Err(fault) => Ok(Err(fault)),
    }
}

/// What an audit says of a bag.
pub fn audit(alloc: Global, bag: &StoredBag) -> Result<AuditReport, AllocError>
    ensures { IfOk result (λ report. report ≡ audit_report (report_on bag.now)) }
{
    let bag = bag.read(alloc)?;
    judging::audit(alloc, &bag)
}
