//! What the bodies of routes say: JSON, read into values of the office.

ghost use Rattle.std.specs.Prelude.{◌≡◌, ◌≢◌, ◌↔◌, ◌≤◌, ℕ, List, [], Option, IsOk, IfOk, IfErr, IfSome, IsUtf8, option_map};
ghost use Rattle.serde_json.specs.Data.{Data, number, string, unsigned};
ghost use Rattle.serde_json.specs.View.{view, members_view};
ghost use Rattle.office_core.specs.Names.{IsName, IsMatter};
ghost use Rattle.desk_forms.specs.declared.body.BodyFault.TheVariants.{Memory};
ghost use Rattle.desk_forms.specs.Bodies.{IsJsonOf, SaysYears, SaysHold, IsDepositNumber, IsHoldBody, hold_object};
ghost use Rattle.desk_forms.specs.BodyReading.{years_in, only_in, only_member, two_in, two_members, two_object, member_view};

use office_core::{MAX_YEARS, Matter, Name, OwnedMatter, OwnedName, Years};
use serde_json::{Map, Value};
use std::alloc::{AllocError, Global};

/// The greatest number that a body names a deposit by.
const MAX_DEPOSIT: u64 = 9_999_999;

/// What is held, and for which matter.
#[derive(Debug, Drop)]
pub enum HoldBody {
    Deposit {
        deposit: u32,
        matter: OwnedMatter,
    },
    Collection {
        collection: OwnedName,
        matter: OwnedMatter,
    },
    Class {
        class: OwnedName,
        matter: OwnedMatter,
    },
}

/// Why a body isn't read.
#[derive(Clone, Copy, Debug, PartialEq, Eq)]
pub enum BodyFault {
    /// It isn't as the route says.
    BadBody,
    /// There is no memory to read it.
    Memory,
}

impl From<AllocError> for BodyFault {
    ghost from_gives = { λ _ fault. fault ≡ Memory };

    fn from(_: AllocError) -> BodyFault {
        BodyFault::Memory
    }
}

/// The body of a route without one: `BadBody` where there is a byte.
pub fn check_no_body(body: &[u8]) -> Result<(), BodyFault>
    ensures taken { IsOk result ↔ (body.now ≡ []) }
    ensures fault { IfErr result (λ fault. fault ≡ BodyFault.BadBody) }
{
    if body.is_empty() {
        Ok(())
    } else {
        Err(BodyFault::BadBody)
    }
}

/// The value that a JSON text writes. A body that is no UTF-8 is refused before anything is allocated.
fn read_json(alloc: Global, body: &[u8]) -> Result<Value, BodyFault>
    ensures value { IfOk result (λ value. IsJsonOf body.now (view value)) }
    ensures refused { result ≡ Err BodyFault.BadBody → (value : Data)
        → ¬ IsJsonOf body.now value }
    ensures text { ¬ IsUtf8 body.now → result ≡ Err BodyFault.BadBody }
{
    let Ok(text) = str::from_utf8(body) else {
        return Err(BodyFault::BadBody);
    };
    match Value::from_str(alloc, text) {
        Ok(value) => Ok(value),
        Err(error) if error.is_memory() => Err(BodyFault::Memory),
        Err(_) => Err(BodyFault::BadBody),
    }
}

/// The years that a value is.
fn years_in(value: &Value) -> Option<Years>
    ensures { result ≡ years_in (view value.now) }
{
    match value {
        Value::Null => Some(Years::permanent()),
        Value::Number(number) => match number.as_u64() {
            Some(n) if n <= u64::from(MAX_YEARS) => Years::new(n as u8),
            _ => None,
        },
        _ => None,
    }
}

/// The value of the one member, under the key.
fn only_in<'a>(members: &'a Map<String, Value>, key: &str) -> Option<&'a Value>
    ensures { option_map (λ v. view v.now) result
        ≡ only_in key.now (members_view members.now.entries) }
{
    let mut members = members.iter();
    let (name, value) = members.next()?;
    if members.next().is_some() || name.as_str() != key {
        return None;
    }
    Some(value)
}

/// The value of an object's one member, under the key.
fn only_member<'a>(value: &'a Value, key: &str) -> Option<&'a Value>
    ensures { option_map (λ v. view v.now) result ≡ only_member key.now (view value.now) }
{
    match value {
        Value::Object(members) => only_in(members, key),
        _ => None,
    }
}

/// The years of a class, `{"years":n}`: a whole number from 0 to 200, or `null` for permanent.
/// `BadBody` where the body says none, and `Memory` where there is no memory for what is UTF-8.
pub fn read_years(alloc: Global, body: &[u8]) -> Result<Years, BodyFault>
    ensures years { IfOk result (λ years. SaysYears body.now years) }
    ensures refused { result ≡ Err BodyFault.BadBody → (years : Option ℕ)
        → ¬ SaysYears body.now years }
    ensures text { ¬ IsUtf8 body.now → result ≡ Err BodyFault.BadBody }
{
    let value = read_json(alloc, body)?;
    match only_member(&value, "years").and_then(years_in) {
        Some(years) => Ok(years),
        None => Err(BodyFault::BadBody),
    }
}

/// A key and its value.
type Member<'a> = (&'a String, &'a Value);

/// The members of an object that has two.
fn two_in(members: &Map<String, Value>) -> Option<(Member<'_>, Member<'_>)>
    ensures { option_map (λ two. (member_view two.0, member_view two.1)) result
        ≡ two_in (members_view members.now.entries) }
{
    let mut members = members.iter();
    let first = members.next()?;
    let second = members.next()?;
    if members.next().is_some() {
        return None;
    }
    Some((first, second))
}

/// The number of a deposit that a value is.
fn deposit_in(value: &Value) -> Option<u32>
    ensures deposit { IfSome result
        (λ deposit. (view value.now ≡ number (unsigned deposit)) × IsDepositNumber deposit) }
    ensures refused { result ≡ None → (deposit : ℕ) → IsDepositNumber deposit
        → view value.now ≢ number (unsigned deposit) }
{
    match value.as_u64() {
        Some(n) if 1 <= n && n <= MAX_DEPOSIT => Some(n as u32),
        _ => None,
    }
}

/// The name that a value is.
fn own_name(alloc: Global, value: &Value) -> Result<OwnedName, BodyFault>
    ensures name { IfOk result (λ name. (view value.now ≡ string name) × IsName name) }
    ensures refused { result ≡ Err BodyFault.BadBody → (name : List ℕ) → IsName name
        → view value.now ≢ string name }
{
    match value.as_str().and_then(Name::read) {
        Some(name) => Ok(name.to_owned(alloc)?),
        None => Err(BodyFault::BadBody),
    }
}

/// The matter that a value is.
fn own_matter(alloc: Global, value: &Value) -> Result<OwnedMatter, BodyFault>
    ensures matter { IfOk result
        (λ matter. (view value.now ≡ string matter) × IsMatter matter) }
    ensures refused { result ≡ Err BodyFault.BadBody → (matter : List ℕ) → IsMatter matter
        → view value.now ≢ string matter }
{
    match value.as_str().and_then(Matter::read) {
        Some(matter) => Ok(matter.to_owned(alloc)?),
        None => Err(BodyFault::BadBody),
    }
}

/// What is held, by the members of an object in the order of their keys, and for which matter.
fn hold_in(
    alloc: Global,
    target: &str,
    held: &Value,
    key: &str,
    matter: &Value,
) -> Result<HoldBody, BodyFault>
    ensures hold { IfOk result (λ hold. IsHoldBody hold
        × (two_object target.now (view held.now) key.now (view matter.now) ≡ hold_object hold)) }
    ensures refused { result ≡ Err BodyFault.BadBody → (hold : HoldBody) → IsHoldBody hold
        → two_object target.now (view held.now) key.now (view matter.now) ≢ hold_object hold }
{
    if key != "matter" {
        return Err(BodyFault::BadBody);
    }
    let matter = own_matter(alloc, matter)?;
    match target {
        "deposit" => match deposit_in(held) {
            Some(deposit) => Ok(HoldBody::Deposit { deposit, matter }),
            None => Err(BodyFault::BadBody),
        },
        "collection" => Ok(HoldBody::Collection {
            collection: own_name(alloc, held)?,
            matter,
        }),
        "class" => Ok(HoldBody::Class {
            class: own_name(alloc, held)?,
            matter,
        }),
        _ => Err(BodyFault::BadBody),
    }
}

/// The members of an object that has two.
fn two_members(value: &Value) -> Option<(Member<'_>, Member<'_>)>
    ensures { option_map (λ two. (member_view two.0, member_view two.1)) result
        ≡ two_members (view value.now) }
{
    match value {
        Value::Object(members) => two_in(members),
        _ => None,
    }
}

/// What is held, and for which matter: `{"deposit":n,"matter":".."}`, with a whole number from 1 to
/// 9,999,999, `{"collection":"..","matter":".."}`, or `{"class":"..","matter":".."}`. `BadBody` where the
/// body says none of these, and `Memory` where there is no memory for what is UTF-8.
pub fn read_hold(alloc: Global, body: &[u8]) -> Result<HoldBody, BodyFault>
    ensures hold { IfOk result (λ hold. SaysHold body.now hold) }
    ensures refused { result ≡ Err BodyFault.BadBody → (hold : HoldBody)
        → ¬ SaysHold body.now hold }
    ensures text { ¬ IsUtf8 body.now → result ≡ Err BodyFault.BadBody }
{
    let value = read_json(alloc, body)?;
    match two_members(&value) {
        Some(((target, held), (key, matter))) => hold_in(
            alloc,
            target.as_str(),
            held,
            key.as_str(),
            matter,
        ),
        None => Err(BodyFault::BadBody),
    }
}
