//! A bag that is stored: its deposit's row, its due day and its count of holds, and its files.

ghost use Rattle.std.specs.Prelude.{◌≡◌, IfErr, IfOk, List, OkIff, ◌<◌, ◌^◌, Some, pos};
ghost use Rattle.sha2.specs.Sha256.{sha256};
ghost use Rattle.bag_text.specs.TransferForm.{File};
ghost use Rattle.bag_text.specs.TransferReading.{file_of, files_of};
ghost use Rattle.bag_check.specs.Digests.{digests_of};
ghost use Rattle.bag_check.specs.Validity.{payload_bytes, payload_files};
ghost use Rattle.office_rows.specs.Rows.{with_file, with_deposit_and_due};
ghost use Rattle.office_contents.specs.Calls.{GoesOnInTurn, GoesOnInside};
ghost use Rattle.office_tables.specs.Deposits.{added_row};
ghost use Rattle.office_core.specs.Retention.{due_number};
ghost use Rattle.office_by_rows.specs.Changes.{with_files};
ghost use Rattle.office_access.specs.Contents.{with_content_of, with_contents_of};
ghost use Rattle.office_access.specs.Serving.{Changes, Rewrites};
ghost use Rattle.office_deposits.specs.Details.{row_of};
ghost use Rattle.office_deposits.specs.Stored.{stored_with_due};

use crate::details::DepositDetails;
use bag_check::{PayloadCounts, count_payload};
use bag_text::BagSet;
use office_access::live_count;
use office_core::Due;
use office_tables::{NewDeposit, TableFault, put_deposit_and_due, put_marked};
use sqlite::{Alter, Transaction};
use std::alloc::Global;

/// Adds a file of a bag, whose content has that SHA-256, to the deposit of that number.
fn add_file<S: Alter>(
    tx: &mut Transaction<'_, S>,
    number: u32,
    file: &(&str, &[u8]),
    digest: &[u8; 32],
) -> Result<(), TableFault>
    requires { digest.now ≡ sha256 file.now.1.now }
    ensures inside { GoesOnInside S.Store tx.old.conn tx.new.conn result }
    ensures changes { Rewrites S.Store tx.old.conn.now tx.new.conn.now result
        (λ tables.
        Some
        (with_file
        (record { deposit = pos number; path = file.now.0.now; content = file.now.1.now }) tables))
        (λ _ contents. with_content_of (file_of file.now) contents) }
{
    put_marked(tx, number, file.0, digest, file.1)?;
    Ok(())
}

/// Adds the files of a bag, whose contents have these SHA-256, in turn.
#[tactic(auto, using(office_contents::proofs::InTurn::in_turn, office_contents::proofs::InTurn::turn_failed))]
fn add_files<S: Alter>(
    tx: &mut Transaction<'_, S>,
    number: u32,
    files: &[(&str, &[u8])],
    digests: &[[u8; 32]],
) -> Result<(), TableFault>
    requires { digests.now ≡ digests_of (files_of files.now) }
    ensures inside { GoesOnInTurn S.Store tx.old.conn tx.new.conn result }
    ensures changes { Rewrites S.Store tx.old.conn.now tx.new.conn.now result
        (λ tables. Some (with_files (pos number) (files_of files.now) tables))
        (λ _ contents. with_contents_of (files_of files.now) contents) }
{
    for (index, file) in files.iter().enumerate() {
        add_file(tx, number, file, &digests[index])?;
    }
    Ok(())
}

/// The number that a row has for a count.
fn row_count(count: usize) -> Result<i64, TableFault>
    ensures fits { OkIff result (count < 2 ^ 63) (pos count) }
    ensures store { IfErr result (λ fault. fault ≡ TableFault.Store) }
{
    match i64::try_from(count) {
        Ok(number) => Ok(number),
        Err(_) => Err(TableFault::Store),
    }
}

/// The deposit of that number that is to be added, with so large a payload.
///
/// Fails with `Store` where a row has no number for a count.
pub(crate) fn new_deposit<'a>(
    details: &DepositDetails<'a>,
    number: u32,
    payload: PayloadCounts,
) -> Result<NewDeposit<'a>, TableFault>
    ensures row { IfOk result (λ new.
        (bag : List File) → payload.files ≡ payload_files bag → payload.bytes ≡ payload_bytes bag
        → added_row new ≡ row_of details.now number bag) }
    ensures store { IfErr result (λ fault. fault ≡ TableFault.Store) }
{
    Ok(NewDeposit {
        number,
        accession: details.description.accession.as_str(),
        collection: details.description.collection.as_str(),
        class: details.description.class.as_str(),
        closed: details.description.closed.number() as i64,
        deposited: details.day.number() as i64,
        files: row_count(payload.files)?,
        bytes: row_count(payload.bytes)?,
    })
}

/// Puts the row of a deposit that falls due so and is covered by that many live holds.
fn put_row<S: Alter>(
    tx: &mut Transaction<'_, S>,
    deposit: NewDeposit<'_>,
    due: Due,
    holds: i64,
) -> Result<(), TableFault>
    ensures inside { GoesOnInside S.Store tx.old.conn tx.new.conn result }
    ensures changes { Changes S.Store tx.old.conn.now tx.new.conn.now result (λ tables.
        Some (with_deposit_and_due (added_row deposit.entry) (due_number due) holds tables)) }
{
    put_deposit_and_due(tx, deposit, due.number(), holds)
}

/// Stores a bag, whose files have these SHA-256, as the deposit of that number, which is to be the next
/// and falls due so.
///
/// Fails with `Memory` or `Store`.
#[tactic(auto, using(office_contents::proofs::InTurn::inside_as))]
pub(crate) fn store_deposit<S: Alter>(
    alloc: Global,
    tx: &mut Transaction<'_, S>,
    details: &DepositDetails<'_>,
    number: u32,
    due: Due,
    bag: &BagSet<'_>,
    digests: &[[u8; 32]],
) -> Result<(), TableFault>
    requires { digests.now ≡ digests_of bag.now }
    ensures inside { GoesOnInside S.Store tx.old.conn tx.new.conn result }
    ensures changes { Rewrites S.Store tx.old.conn.now tx.new.conn.now result
        (stored_with_due number (row_of details.now number bag.now) due bag.now)
        (λ _ contents. with_contents_of bag.now contents) }
{
    let collection = details.description.collection.as_str();
    let class = details.description.class.as_str();
    let holds = live_count(alloc, tx, number, collection, class)?;
    let new = new_deposit(details, number, count_payload(bag))?;
    put_row(tx, new, due, holds)?;
    add_files(tx, number, bag.files(), digests)
}
