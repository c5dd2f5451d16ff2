//! What the history says: each question is answered by going over all changes.

ghost use Rattle.std.specs.Prelude.{◌≡◌, ◌≤◌, length, option_copied, is_none, ◌&&◌, ◌+◌, IfOk};
ghost use Rattle.office_rows.specs.Rows.{max_limit};
ghost use Rattle.office_history.specs.Lists.{last_said};
ghost use Rattle.office_history.specs.Histories.{installed_in, policy, years_of, has_class, has_collection, deposits, deposit_numbered, accession_of, destruction_day, kept_numbers, due, holds, hold_numbered, release_day, is_live, reaches, covers, live_holds};
ghost use Rattle.test_plain.specs.Changes.{borrowed};

use crate::change::{Deposit, Hold, Target};
use crate::history::{Office, changes_of};
use office_core::{Day, Due, Policy, Years};
use std::alloc::{AllocError, Global};

/// The policy that was installed last.
pub fn installed_policy(office: &Office) -> Option<&Policy>
    ensures { option_copied result ≡ last_said installed_in office.now.changes }
{
    let changes = changes_of(office);
    let mut last = None;
    for change in changes {
        if let Some(policy) = change.installed_policy() {
            last = Some(policy);
        }
    }
    last
}

/// The present years of a class, where there is such a class.
pub fn years_of(office: &Office, class: &str) -> Option<Years>
    ensures { result ≡ years_of office.now class.now }
{
    let changes = changes_of(office);
    let mut last = None;
    for change in changes {
        if let Some(years) = change.years(class) {
            last = Some(years);
        }
    }
    last
}

/// Whether there is a class of that name.
pub fn has_class(office: &Office, class: &str) -> bool
    ensures { result ≡ has_class office.now class.now }
{
    years_of(office, class).is_some()
}

/// Whether there is a collection of that name.
pub fn has_collection(office: &Office, name: &str) -> bool
    ensures { result ≡ has_collection office.now name.now }
{
    let changes = changes_of(office);
    for change in changes {
        if let Some(collection) = change.collection() {
            if name == collection {
                return true;
            }
        }
    }
    false
}

/// How many deposits were accepted.
pub fn deposit_count(office: &Office) -> u32
    ensures count { result ≡ length (deposits office.now) }
    ensures few { result ≤ max_limit }
{
    let changes = changes_of(office);
    let mut count = 0;
    for change in changes {
        if change.deposit().is_some() {
            count += 1;
        }
    }
    count
}

#[tactic(auto, using(crate::proofs::WalkLemmas::numbered_next))]
/// The deposit of that number, with its day.
pub fn deposit_numbered(office: &Office, number: u32) -> Option<(Day, &Deposit)>
    ensures { borrowed result ≡ deposit_numbered office.now number }
{
    let changes = changes_of(office);
    let mut left = number;
    for change in changes {
        if let Some(found) = change.deposit() {
            if left == 1 {
                return Some(found);
            }
            left = left.saturating_sub(1);
        }
    }
    None
}

#[tactic(auto, using(crate::proofs::WalkLemmas::accession_found))]
/// The number of the deposit that has this accession, kept or destroyed.
pub fn accession_of(office: &Office, accession: &str) -> Option<u32>
    ensures { result ≡ accession_of office.now accession.now }
{
    let changes = changes_of(office);
    let mut number = 0;
    for change in changes {
        if let Some((_, deposit)) = change.deposit() {
            number += 1;
            if deposit.description.accession.as_str() == accession {
                return Some(number);
            }
        }
    }
    None
}

/// The day on which the deposit was destroyed, if it was.
pub fn destruction_day(office: &Office, deposit: u32) -> Option<Day>
    ensures { result ≡ destruction_day office.now deposit }
{
    let changes = changes_of(office);
    for change in changes {
        if let Some(day) = change.destruction_day(deposit) {
            return Some(day);
        }
    }
    None
}

/// A deposit is kept until it is destroyed.
fn is_kept(office: &Office, deposit: u32) -> bool
    ensures { result ≡ is_none (destruction_day office.now deposit) }
{
    destruction_day(office, deposit).is_none()
}

/// The numbers of the deposits that are kept, ascending.
pub fn kept_numbers(alloc: Global, office: &Office) -> Result<Vec<u32>, AllocError>
    ensures { IfOk result (λ numbers. numbers.items ≡ kept_numbers office.now) }
{
    let count = deposit_count(office);
    let mut kept = Vec::new(alloc);
    for number in 1..count + 1 {
        if is_kept(office, number) {
            kept.push(number)?;
        }
    }
    Ok(kept)
}

/// The day from which a deposit may be destroyed, by the present years of its class.
pub fn due(office: &Office, deposit: &Deposit) -> Due
    ensures { result ≡ due office.now deposit.now }
{
    match years_of(office, deposit.description.class.as_str()) {
        Some(years) => office_core::due(deposit.description.closed, years),
        None => Due::Never,
    }
}

/// How many holds were accepted.
pub fn hold_count(office: &Office) -> u32
    ensures count { result ≡ length (holds office.now) }
    ensures few { result ≤ max_limit }
{
    let changes = changes_of(office);
    let mut count = 0;
    for change in changes {
        if change.hold().is_some() {
            count += 1;
        }
    }
    count
}

#[tactic(auto, using(crate::proofs::WalkLemmas::numbered_next))]
/// The hold of that number, with its day.
pub fn hold_numbered(office: &Office, number: u32) -> Option<(Day, &Hold)>
    ensures { borrowed result ≡ hold_numbered office.now number }
{
    let changes = changes_of(office);
    let mut left = number;
    for change in changes {
        if let Some(found) = change.hold() {
            if left == 1 {
                return Some(found);
            }
            left = left.saturating_sub(1);
        }
    }
    None
}

/// The day on which the hold was released, if it was.
pub fn release_day(office: &Office, hold: u32) -> Option<Day>
    ensures { result ≡ release_day office.now hold }
{
    let changes = changes_of(office);
    for change in changes {
        if let Some(day) = change.release_day(hold) {
            return Some(day);
        }
    }
    None
}

/// A hold is live until it is released.
fn is_live(office: &Office, hold: u32) -> bool
    ensures { result ≡ is_live office.now hold }
{
    release_day(office, hold).is_none()
}

/// A hold on a deposit covers it, one on a collection each deposit of the collection, and one on a
/// class each deposit of the class, whichever came first.
fn reaches(hold: &Hold, number: u32, deposit: &Deposit) -> bool
    ensures { result ≡ reaches hold.now.target number deposit.now }
{
    match &hold.target {
        Target::Deposit(of) => *of == number,
        Target::Collection(name) => name.as_str() == deposit.description.collection.as_str(),
        Target::Class(name) => name.as_str() == deposit.description.class.as_str(),
    }
}

/// Whether the hold of that number, live or not, covers a deposit.
fn covers(office: &Office, hold: u32, number: u32, deposit: &Deposit) -> bool
    ensures { result ≡ covers office.now hold number deposit.now }
{
    match hold_numbered(office, hold) {
        Some((_, hold)) => reaches(hold, number, deposit),
        None => false,
    }
}

/// A live hold that covers a deposit.
fn holds_back(office: &Office, hold: u32, number: u32, deposit: &Deposit) -> bool
    ensures { result ≡ (is_live office.now hold && covers office.now hold number deposit.now) }
{
    is_live(office, hold) && covers(office, hold, number, deposit)
}

/// The numbers of the live holds that cover a deposit, ascending.
pub fn live_holds(
    alloc: Global,
    office: &Office,
    number: u32,
    deposit: &Deposit,
) -> Result<Vec<u32>, AllocError>
    ensures { IfOk result (λ numbers. numbers.items ≡ live_holds office.now number deposit.now) }
{
    let count = hold_count(office);
    let mut found = Vec::new(alloc);
    for hold in 1..count + 1 {
        if holds_back(office, hold, number, deposit) {
            found.push(hold)?;
        }
    }
    Ok(found)
}
