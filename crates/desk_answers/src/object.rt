//! Objects of JSON, from lists of their members.

ghost use Rattle.std.specs.Prelude.{◌≡◌, IfOk, map, false};
ghost use Rattle.serde_json.specs.View.{view};
ghost use Rattle.serde_json.specs.Written.{compact_text, has_float};
ghost use Rattle.desk_answers.specs.Objects.{whole};
ghost use Rattle.desk_answers.specs.Members.{member_data, object_with};

use bag_text::Version;
use office_core::{Day, Due, Years};
use serde_json::{Map, Value, put};
use std::alloc::{AllocError, Global};

/// What a member of an object says.
#[derive(Clone, Copy)]
pub enum MemberValue<'a> {
    Number(u64),
    Numbers(&'a [u32]),
    Text(&'a str),
    Flag(bool),
    Day(Day),
    Due(Due),
    Years(Years),
    Version(Version),
}

/// A day as it is written.
fn written_day(alloc: Global, day: Day) -> Result<Value, AllocError>
    ensures { IfOk result (λ value. view value ≡ member_data (MemberValue.Day day)) }
{
    Ok(Value::from(format!(in alloc; "{day}")?))
}

/// The day from which a deposit may be destroyed, or that there is none.
fn written_due(alloc: Global, due: Due) -> Result<Value, AllocError>
    ensures { IfOk result (λ value. view value ≡ member_data (MemberValue.Due due)) }
{
    match due {
        Due::On(date) => Ok(Value::from(format!(in alloc; "{date}")?)),
        Due::Never => Value::try_from_str(alloc, "permanent"),
    }
}

/// The version as a bag declares it.
fn written_version(alloc: Global, version: Version) -> Result<Value, AllocError>
    ensures { IfOk result (λ value. view value ≡ member_data (MemberValue.Version version)) }
{
    Ok(Value::from(format!(in alloc; "{version}")?))
}

/// The number of years, or null where it is permanent.
fn years_value(years: Years) -> Value
    ensures { view result ≡ member_data (MemberValue.Years years) }
{
    match years.count() {
        Some(count) => Value::from(count),
        None => Value::Null,
    }
}

/// The numbers in their order.
fn numbers(alloc: Global, numbers: &[u32]) -> Result<Vec<Value>, AllocError>
    ensures { IfOk result (λ values. map view values.items ≡ map whole numbers.now) }
{
    let mut values = Vec::new(alloc);
    for number in numbers {
        values.push(Value::from(*number))?;
    }
    Ok(values)
}

/// The value of a member.
fn member_value(alloc: Global, value: &MemberValue<'_>) -> Result<Value, AllocError>
    ensures { IfOk result (λ made. view made ≡ member_data value.now) }
{
    match value {
        MemberValue::Number(number) => Ok(Value::from(*number)),
        MemberValue::Numbers(list) => Ok(Value::Array(numbers(alloc, list)?)),
        MemberValue::Text(text) => Value::try_from_str(alloc, text),
        MemberValue::Flag(flag) => Ok(Value::from(*flag)),
        MemberValue::Day(day) => written_day(alloc, *day),
        MemberValue::Due(due) => written_due(alloc, *due),
        MemberValue::Years(years) => Ok(years_value(*years)),
        MemberValue::Version(version) => written_version(alloc, *version),
    }
}

/// The object with these members.
pub(crate) fn object(
    alloc: Global,
    members: &[(&str, MemberValue<'_>)],
) -> Result<Value, AllocError>
    ensures { IfOk result (λ value. view value ≡ object_with members.now) }
{
    let mut map = Map::new(alloc);
    for (key, value) in members {
        put(&mut map, alloc, key, member_value(alloc, value)?)?;
    }
    Ok(Value::Object(map))
}

/// The value in JSON. It takes the value, so that few functions have the drop of one to prove.
pub(crate) fn text_of(alloc: Global, value: Value) -> Result<Vec<u8>, AllocError>
    ensures { IfOk result (λ text. has_float (view value) ≡ false
        → text.items ≡ compact_text (view value)) }
{
    value.to_vec(alloc)
}
