//! Deposits of bags.

ghost use Rattle.std.specs.Prelude.{◌≡◌, IfErr, IfOk, [], ◌∷◌, Ok, Some};
ghost use Rattle.std.specs.Result.{result_err};
ghost use Rattle.office_core.specs.FirstOf.{first_some};
ghost use Rattle.office_contents.specs.Calls.{GoesOnInside, Shows};
ghost use Rattle.bag_check.specs.Digests.{digests_of};
ghost use Rattle.office_history.specs.Bags.{bag_of};
ghost use Rattle.office_history.specs.Refusals.{bad_bag, closed_ahead_refusal};
ghost use Rattle.office_by_rows.specs.Refusals as by_rows;
ghost use Rattle.office_by_rows.specs.Refusals.{first_told, full_of_deposits, highest_deposit, number_after, refusals_before_the_bag, refusals_of_the_bag};
ghost use Rattle.office_access.specs.Serving.{Serves};
ghost use Rattle.office_deposits.specs.Details.{request_of, visit_of};
ghost use Rattle.office_deposits.specs.Stored.{years_shown};

use crate::details::DepositDetails;
use crate::storing::store_deposit;
use bag_text::BagSet;
use office_access::{denial, number_after, years_numbered};
use office_core::{Action, Answer, Day, Refusal, Subject, due};
use office_history::judging::{DigestedBag, digested_bag};
use office_tables::{TableFault, by_accession, class_of, has_collection, last_deposit, limits};
use sqlite::{Alter, Transaction};
use std::alloc::Global;

/// These years, unless it is refused.
fn unless_refused(years: i64, refused: Option<Refusal>) -> Result<i64, Refusal>
    ensures refused { result_err result ≡ refused }
    ensures years { IfOk result (λ given. given ≡ years) }
{
    match refused {
        Some(why) => Err(why),
        None => Ok(years),
    }
}

/// The number of years in the class's row, or the first refusal of the filing that applies: no such
/// collection, no such class, or the caller may not deposit there.
fn years_for_filing<S: Alter>(
    tx: &mut Transaction<'_, S>,
    details: &DepositDetails<'_>,
) -> Result<Result<i64, Refusal>, TableFault>
    ensures inside { GoesOnInside S.Store tx.old.conn tx.new.conn result }
    ensures reads { Shows S.Store tx.old.conn.now tx.new.conn.now result (λ tables given.
        (first_told
        (by_rows.filing_refusals tables (visit_of details.now) details.now.description.now)
        ≡ Some (result_err given))
        × IfOk given (λ years. years_shown tables details.now.description.now.class ≡ Some years)) }
{
    let collection = details.description.collection.as_str();
    let class = details.description.class.as_str();
    if !has_collection(tx, collection)? {
        return Ok(Err(Refusal::NoSuch(Subject::Collection)));
    }
    let Some(years) = class_of(tx, class)? else {
        return Ok(Err(Refusal::NoSuch(Subject::Class)));
    };
    let denied = denial(
        tx,
        details.day,
        details.caller,
        Action::Deposit,
        Some(collection),
        Some(class),
    )?;
    Ok(unless_refused(years, denied))
}

/// The refusal where the closing day comes after the day of the request.
fn closed_ahead(day: Day, closed: Day) -> Option<Refusal>
    ensures { result ≡ closed_ahead_refusal day closed }
{
    if day.number() < closed.number() {
        return Some(Refusal::ClosedAhead);
    }
    None
}

/// The first refusal that applies after those of the filing: a deposit, kept or destroyed, has the
/// accession, or the closing day comes after the day of the request.
fn refusal_after_filing<S: Alter>(
    tx: &mut Transaction<'_, S>,
    details: &DepositDetails<'_>,
) -> Result<Option<Refusal>, TableFault>
    ensures inside { GoesOnInside S.Store tx.old.conn tx.new.conn result }
    ensures reads { Shows S.Store tx.old.conn.now tx.new.conn.now result (λ tables why.
        first_told
        (by_rows.taken_refusal tables details.now.description.now.accession
        ∷ Some (closed_ahead_refusal details.now.day details.now.description.now.closed) ∷ [])
        ≡ Some why) }
{
    match by_accession(tx, details.description.accession.as_str())? {
        Some(deposit) => Ok(Some(Refusal::Taken(deposit.number))),
        None => Ok(closed_ahead(details.day, details.description.closed)),
    }
}

/// The number of years in the class's row, or the first refusal that applies before the bag is looked at.
fn years_before_the_bag<S: Alter>(
    tx: &mut Transaction<'_, S>,
    details: &DepositDetails<'_>,
) -> Result<Result<i64, Refusal>, TableFault>
    ensures inside { GoesOnInside S.Store tx.old.conn tx.new.conn result }
    ensures reads { Shows S.Store tx.old.conn.now tx.new.conn.now result (λ tables given.
        (first_told
        (refusals_before_the_bag tables (visit_of details.now) details.now.description.now)
        ≡ Some (result_err given))
        × IfOk given (λ years. years_shown tables details.now.description.now.class ≡ Some years)) }
{
    let years = match years_for_filing(tx, details)? {
        Ok(years) => years,
        Err(why) => return Ok(Err(why)),
    };
    let refused = refusal_after_filing(tx, details)?;
    Ok(unless_refused(years, refused))
}

/// The number of the next deposit, where the office takes one more.
#[tactic(auto, using(office_contents::proofs::InTurn::inside_after, office_contents::proofs::InTurn::inside_failed))]
fn next_number<S: Alter>(tx: &mut Transaction<'_, S>) -> Result<Result<u32, Refusal>, TableFault>
    ensures inside { GoesOnInside S.Store tx.old.conn tx.new.conn result }
    ensures reads { Shows S.Store tx.old.conn.now tx.new.conn.now result (λ tables next.
        (full_of_deposits tables ≡ Some (result_err next))
        × IfOk next (λ number. number_after (highest_deposit tables) ≡ Some number)) }
{
    let limits = limits(tx)?;
    let last = last_deposit(tx)?;
    Ok(number_after(last, limits.max_deposits))
}

/// A bag that is to be kept, the SHA-256 of each of its files, and the number that its deposit is to have.
#[derive(Drop)]
struct NewBag<'a> {
    bag: BagSet<'a>,
    digests: Vec<[u8; 32]>,
    number: u32,
}

/// The bag of the text with its number, or the first refusal that applies: a bad bag, or, where there
/// is no number, a full office.
fn judged_bag<'a>(
    alloc: Global,
    text: &'a [u8],
    number: Result<u32, Refusal>,
) -> Result<Result<NewBag<'a>, Refusal>, TableFault>
    ensures memory { IfErr result (λ fault. fault ≡ TableFault.Memory) }
    ensures refused { IfOk result (λ details.
        result_err details ≡ first_some (bad_bag text.entry.now ∷ result_err number ∷ [])) }
    ensures given { IfOk result (λ details. IfOk details (λ new.
        (bag_of text.entry.now ≡ Ok new.bag) × (number ≡ Ok new.number))) }
    ensures digests { IfOk result (λ details. IfOk details (λ new.
        new.digests.items ≡ digests_of new.bag)) }
{
    let DigestedBag { bag, digests } = match digested_bag(alloc, text)? {
        Ok(digested) => digested,
        Err(fault) => return Ok(Err(Refusal::BadBag(fault))),
    };
    match number {
        Ok(number) => Ok(Ok(NewBag {
            bag,
            digests,
            number,
        })),
        Err(why) => Ok(Err(why)),
    }
}

/// The bag of the text with the number of the next deposit, or the first refusal of the bag or of the
/// office that applies: a bad bag, or a full office.
#[tactic(auto, using(office_contents::proofs::InTurn::inside_as))]
fn numbered_bag<'a, S: Alter>(
    alloc: Global,
    tx: &mut Transaction<'_, S>,
    text: &'a [u8],
) -> Result<Result<NewBag<'a>, Refusal>, TableFault>
    ensures inside { GoesOnInside S.Store tx.old.conn tx.new.conn result }
    ensures reads { Shows S.Store tx.old.conn.now tx.new.conn.now result (λ tables details.
        (first_told (refusals_of_the_bag tables text.entry.now) ≡ Some (result_err details))
        × IfOk details (λ new. number_after (highest_deposit tables) ≡ Some new.number)) }
    ensures bag { IfOk result (λ details. IfOk details (λ new.
        bag_of text.entry.now ≡ Ok new.bag)) }
    ensures digests { IfOk result (λ details. IfOk details (λ new.
        new.digests.items ≡ digests_of new.bag)) }
{
    let number = next_number(tx)?;
    judged_bag(alloc, text, number)
}

/// Accepts the bag whose transfer form the text is as the next deposit.
///
/// Refused, in this order: no such collection, no such class, the caller may not, the accession is
/// taken, closed after the day of the request, a bad bag, a full office. Fails with `Memory` or
/// `Store`.
pub fn deposit<S: Alter>(
    alloc: Global,
    tx: &mut Transaction<'_, S>,
    details: &DepositDetails<'_>,
    bag: &[u8],
) -> Result<Answer, TableFault>
    ensures inside { GoesOnInside S.Store tx.old.conn tx.new.conn result }
    ensures serves { Serves S.Store tx.old.conn.now tx.new.conn.now result (visit_of details.now)
        (request_of details.now bag.entry) }
{
    let years = match years_before_the_bag(tx, details)? {
        Ok(years) => years,
        Err(why) => return Ok(Answer::Refused(why)),
    };
    let new = match numbered_bag(alloc, tx, bag)? {
        Ok(new) => new,
        Err(why) => return Ok(Answer::Refused(why)),
    };
    let due = due(details.description.closed, years_numbered(years)?);
    store_deposit(alloc, tx, details, new.number, due, &new.bag, &new.digests)?;
    Ok(Answer::Deposited {
        deposit: new.number,
    })
}
