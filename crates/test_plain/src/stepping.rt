//! Answering requests, a step each.

ghost use Rattle.std.specs.Prelude.{◌≡◌, [], ◌∷◌, IfOk, OnOk, OnErr};
ghost use Rattle.office_history.specs.Answers.{deposit_change, allowed_change, answer, after};
ghost use Rattle.office_history.specs.Bags.{bag_of};
ghost use Rattle.office_history.specs.Histories.{Change, PlacedHold, with_changes};
ghost use Rattle.test_plain.specs.Changes.{change_seen, changes_seen};
ghost use Rattle.test_plain.specs.Targets.{target_seen};
ghost use Rattle.test_plain.specs.Offices.{HasRoom, IsWantOfMemory};
ghost use Rattle.office_history.specs.Runs.{IsLegal, StepFailing};

use crate::answering::allowed_answer;
use crate::change::{Deposit, Hold, Kind, Target};
use crate::history::{Office, accept};
use crate::judging::bag_of;
use crate::reading::has_collection;
use crate::refusals::refusal;
use office_core::{Answer, Day, Description, Matter, Refusal, Request};
use std::alloc::{AllocError, Global};

fn deposit_change(
    alloc: Global,
    day: Day,
    description: &Description<'_>,
    bag: &[u8],
) -> Result<Option<Kind>, AllocError>
    ensures { IfOk result (λ kind.
        changes_seen kind ≡ deposit_change day description.now (bag_of bag.now)) }
{
    match bag_of(alloc, bag)? {
        Ok(bag) => {
            let deposit = Deposit {
                description: description.to_owned(alloc)?,
                bag,
            };
            Ok(Some(Kind::Deposited(day, deposit)))
        }
        Err(_) => Ok(None),
    }
}

fn placed_hold(
    alloc: Global,
    day: Day,
    target: Target,
    matter: &Matter<'_>,
) -> Result<Kind, AllocError>
    ensures { IfOk result (λ kind.
        change_seen kind
        ≡ PlacedHold day (record { target = target_seen target; matter = matter.now })) }
{
    let matter = matter.to_owned(alloc)?;
    Ok(Kind::PlacedHold(day, Hold { target, matter }))
}

/// The change that an allowed request makes, if it makes one.
fn allowed_change(
    alloc: Global,
    office: &Office,
    day: Day,
    request: &Request<'_>,
) -> Result<Option<Kind>, AllocError>
    ensures { IfOk result (λ kind.
        changes_seen kind ≡ allowed_change office.now day request.now) }
{
    match request {
        Request::DefineClass { name, years } => {
            let name = name.to_owned(alloc)?;
            Ok(Some(Kind::DefinedClass(day, name, *years)))
        }
        Request::DefineCollection { name } => {
            if has_collection(office, name.as_str()) {
                return Ok(None);
            }
            let name = name.to_owned(alloc)?;
            Ok(Some(Kind::DefinedCollection(day, name)))
        }
        Request::Deposit { description, bag } => { deposit_change(alloc, day, description, *bag) }
        Request::HoldDeposit { deposit, matter } => {
            Ok(Some(placed_hold(alloc, day, Target::Deposit(*deposit), matter)?))
        }
        Request::HoldCollection { collection, matter } => {
            let collection = collection.to_owned(alloc)?;
            Ok(Some(placed_hold(alloc, day, Target::Collection(collection), matter)?))
        }
        Request::HoldClass { class, matter } => {
            let class = class.to_owned(alloc)?;
            Ok(Some(placed_hold(alloc, day, Target::Class(class), matter)?))
        }
        Request::Release { hold } => Ok(Some(Kind::ReleasedHold(day, *hold))),
        Request::Dispose { deposit } => Ok(Some(Kind::Destroyed(day, *deposit))),
        _ => Ok(None),
    }
}

/// Makes the change of an allowed request, if it makes one.
fn make_change(
    alloc: Global,
    office: &mut Office,
    day: Day,
    request: &Request<'_>,
) -> Result<(), AllocError>
    requires { (change : Change) → allowed_change office.old day request.now ≡ change ∷ []
        → HasRoom office.old change }
    ensures made { OnOk result
        (office.new ≡ with_changes office.old (allowed_change office.old day request.now)) }
    ensures failed { OnErr result (office.new ≡ office.old) }
{
    match allowed_change(alloc, office, day, request)? {
        Some(kind) => accept(office, kind),
        None => Ok(()),
    }
}

fn answer_and_change(
    alloc: Global,
    office: &mut Office,
    day: Day,
    caller: &str,
    request: &Request<'_>,
) -> Result<Answer, AllocError>
    ensures answer { IfOk result (λ given.
        given ≡ answer office.old day caller.now request.now) }
    ensures after { OnOk result (office.new ≡ after office.old day caller.now request.now) }
    ensures failed { OnErr result (office.new ≡ office.old) }
{
    if let Some(refusal) = refusal(alloc, office, day, caller, request)? {
        return Ok(Answer::Refused(refusal));
    }
    let answer = allowed_answer(alloc, office, day, caller, request)?;
    make_change(alloc, office, day, request)?;
    Ok(answer)
}

impl Office {
    /// Answers a caller's request on that day. Where memory runs out the office is as it was, as
    /// after every refusal. A legal history stays legal.
    pub fn step(&mut self, alloc: Global, day: Day, caller: &str, request: &Request<'_>) -> Answer
        ensures served { StepFailing IsWantOfMemory self.old
            (day, caller.entry, request.now) result self.new }
        ensures legal { IsLegal self.old → IsLegal self.new }
    {
        // What the types of a day and of a request say of their values.
        let _date = day.date();
        request.prove_in_range();
        match answer_and_change(alloc, self, day, caller, request) {
            Ok(answer) => answer,
            Err(_) => Answer::Refused(Refusal::Memory),
        }
    }
}
