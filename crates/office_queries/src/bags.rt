//! Downloads of bags.

ghost use Rattle.std.specs.Prelude.{◌≡◌, ◌↔◌, IfErr, IfOk, map};
ghost use Rattle.bag_text.specs.TransferForm.{IsBag, set_text};
ghost use Rattle.bag_text.specs.TransferReading as reading;
ghost use Rattle.office_core.specs.declared.request.Request.TheVariants as requests;
ghost use Rattle.office_contents.specs.Faults.{IsFailure};
ghost use Rattle.office_contents.specs.Calls.{GoesOnInside};
ghost use Rattle.office_contents.specs.Contents.{Does};
ghost use Rattle.office_by_rows.specs.Answers.{file_in};
ghost use Rattle.office_access.specs.Asking.{visit_on};
ghost use Rattle.office_queries.specs.Reading.{IsReadFor, ServesReading};

use bag_text::{BagSet, SetFault, write_bagset};
use office_access::kept_deposit;
use office_core::{Action, Answer, Day, Sequence};
use office_tables::{FileRow, TableFault, intact_files_of};
use sqlite::{Alter, Transaction};
use std::alloc::Global;

/// The paths and contents of the rows, lent.
///
/// Fails with `Memory`.
pub fn pairs_of(alloc: Global, rows: &[FileRow]) -> Result<Vec<(&str, &[u8])>, TableFault>
    ensures pairs { IfOk result (λ pairs. reading.files_of pairs.items ≡ map file_in rows.now) }
    ensures memory { IfErr result (λ fault. fault ≡ TableFault.Memory) }
{
    let mut pairs = Vec::new(alloc);
    for row in rows {
        pairs.push((row.path.as_str(), row.content.as_slice()))?;
    }
    Ok(pairs)
}

/// The transfer form of the bag that a list of files is.
///
/// Fails with `Store` where it is none, and with `Memory`.
fn form_of(alloc: Global, files: &[(&str, &[u8])]) -> Result<Vec<u8>, TableFault>
    ensures form { IfOk result (λ text. IsBag (reading.files_of files.now)
        × (text.items ≡ set_text (reading.files_of files.now))) }
    ensures none { IfErr result (λ fault.
        (fault ≡ TableFault.Store) ↔ (IsBag (reading.files_of files.now) → ⊥)) }
    ensures failure { IfErr result IsFailure }
{
    match BagSet::of(alloc, files) {
        Ok(bag) => Ok(write_bagset(alloc, &bag)?),
        Err(SetFault::Memory) => Err(TableFault::Memory),
        Err(_) => Err(TableFault::Store),
    }
}

/// The transfer form of the bag whose files the rows have.
///
/// Fails with `Store` where they are no bag, and with `Memory`.
fn text_of(alloc: Global, rows: &[FileRow]) -> Result<Vec<u8>, TableFault>
    ensures form { IfOk result (λ text. IsBag (map file_in rows.now)
        × (text.items ≡ set_text (map file_in rows.now))) }
    ensures none { IfErr result (λ fault.
        fault ≡ TableFault.Store → IsBag (map file_in rows.now) → ⊥) }
    ensures failure { IfErr result IsFailure }
{
    let pairs = pairs_of(alloc, rows)?;
    form_of(alloc, &pairs)
}

/// The answer with the transfer form of the bag of that deposit, where each content is intact.
///
/// Fails with `Memory` or `Store`.
fn stored_bag<S: Alter>(
    alloc: Global,
    tx: &mut Transaction<'_, S>,
    number: u32,
) -> Result<Answer, TableFault>
    ensures inside { GoesOnInside S.Store tx.old.conn tx.new.conn result }
    ensures reads { Does S.Store tx.old.conn.now tx.new.conn.now result
        (IsReadFor (requests.DownloadBag number)) }
{
    let rows = intact_files_of(alloc, tx, number)?;
    Ok(Answer::Bag {
        bytes: Sequence::of(text_of(alloc, &rows)?),
    })
}

/// Answers the transfer form of a deposit's bag, where the SHA-256 of each content is still its mark.
///
/// Fails with `Memory` or `Store`, as where it is not, and where the files that are stored are no bag.
#[tactic(auto, using(office_contents::proofs::InTurn::inside_then))]
pub fn download_bag<S: Alter>(
    alloc: Global,
    tx: &mut Transaction<'_, S>,
    day: Day,
    caller: &str,
    number: u32,
) -> Result<Answer, TableFault>
    ensures inside { GoesOnInside S.Store tx.old.conn tx.new.conn result }
    ensures serves { ServesReading S.Store tx.old.conn.now tx.new.conn.now result
        (visit_on day caller.now) (requests.DownloadBag number) }
{
    match kept_deposit(tx, day, caller, Action::Download, number)? {
        Ok(_) => stored_bag(alloc, tx, number),
        Err(why) => Ok(Answer::Refused(why)),
    }
}
