//! What the numbers and texts of rows mean. A row with a value that means nothing comes from no accepted
//! change, and is a fault of the store.

ghost use Rattle.std.specs.Prelude.{◌≡◌, Err, IfErr, IfOk, Ok, OnErr, if◌then◌else◌, pos, true};
ghost use Rattle.std.specs.Option.{ok_or};
ghost use Rattle.office_contents.specs.declared.fault.TableFault.TheVariants.{Memory, Store};
ghost use Rattle.office_by_rows.specs.Values.{day_numbered, due_of_number, if_any, is_between, years_of_number};

use office_core::{Day, Due, OwnedText, Text, TextKind, Years, due_date};
use office_tables::TableFault;
use std::alloc::Global;

/// What is there. Where nothing is that has to be, it is a fault of the store.
pub fn there<T>(found: Option<T>) -> Result<T, TableFault>
    ensures { result ≡ ok_or found TableFault.Store }
{
    match found {
        Some(value) => Ok(value),
        None => Err(TableFault::Store),
    }
}

/// That something is there. Where nothing is that has to be, it is a fault of the store.
pub fn check_there(found: bool) -> Result<(), TableFault>
    ensures { result ≡ (if found then Ok tt else Err TableFault.Store) }
{
    if found {
        Ok(())
    } else {
        Err(TableFault::Store)
    }
}

/// That a count is from the least to the most that it may be, both included.
///
/// Fails with `Store`.
pub fn check_between(count: i64, least: u32, most: u32) -> Result<(), TableFault>
    ensures reads { result
        ≡ (if is_between (pos least) (pos most) count then Ok tt else Err TableFault.Store) }
    ensures store { IfErr result (λ fault. fault ≡ TableFault.Store) }
{
    let least = least as i64;
    let most = most as i64;
    if count < least || most < count {
        return Err(TableFault::Store);
    }
    Ok(())
}

/// The day with that number.
pub fn day_numbered(number: i64) -> Result<Day, TableFault>
    ensures reads { result ≡ ok_or (day_numbered number) TableFault.Store }
    ensures store { IfErr result (λ fault. fault ≡ TableFault.Store) }
{
    let Ok(small) = i32::try_from(number) else {
        return Err(TableFault::Store);
    };
    match Day::new(small) {
        Some(day) => Ok(day),
        None => Err(TableFault::Store),
    }
}

/// The day with that number, where there is a number.
pub fn optional_day_numbered(number: Option<i64>) -> Result<Option<Day>, TableFault>
    ensures reads { result ≡ ok_or (if_any day_numbered number) TableFault.Store }
    ensures store { IfErr result (λ fault. fault ≡ TableFault.Store) }
{
    match number {
        Some(number) => Ok(Some(day_numbered(number)?)),
        None => Ok(None),
    }
}

/// The day from which a deposit may be destroyed, by the number in its due row; never where there is none.
pub fn due_numbered(number: Option<i64>) -> Result<Due, TableFault>
    ensures reads { result ≡ ok_or (due_of_number number) TableFault.Store }
    ensures store { IfErr result (λ fault. fault ≡ TableFault.Store) }
{
    let Some(number) = number else {
        return Ok(Due::Never);
    };
    match due_date(number) {
        Some(date) => Ok(Due::On(date)),
        None => Err(TableFault::Store),
    }
}

/// The years that the number of a class's row means.
pub fn years_numbered(number: i64) -> Result<Years, TableFault>
    ensures reads { result ≡ ok_or (years_of_number number) TableFault.Store }
    ensures store { IfErr result (λ fault. fault ≡ TableFault.Store) }
{
    if number == -1 {
        return Ok(Years::permanent());
    }
    let Ok(count) = u8::try_from(number) else {
        return Err(TableFault::Store);
    };
    match Years::new(count) {
        Some(years) => Ok(years),
        None => Err(TableFault::Store),
    }
}

/// The name, accession number or matter that a text is, lent.
///
/// Fails with `Store`.
pub fn text_read<K: TextKind>(text: &str) -> Result<Text<'_, K>, TableFault>
    ensures text { IfOk result (λ found. found ≡ text.now) }
    ensures kind { IfOk result (λ found. K.is_of_kind found ≡ true) }
    // Only a text that is none fails.
    ensures none { OnErr result (K.is_of_kind text.now ≡ true → ⊥) }
    ensures store { IfErr result (λ fault. fault ≡ TableFault.Store) }
{
    match Text::<K>::read(text) {
        Some(found) => Ok(found),
        None => Err(TableFault::Store),
    }
}

/// The name, accession number or matter that a text is.
pub fn text_of_kind<K: TextKind>(alloc: Global, text: &str) -> Result<OwnedText<K>, TableFault>
    ensures text { IfOk result (λ owned. owned ≡ text.now) }
    // A text of the kind fails for lack of memory alone, and what is none is a fault of the store.
    ensures memory { K.is_of_kind text.now ≡ true → IfErr result (λ fault. fault ≡ Memory) }
    ensures store { (K.is_of_kind text.now ≡ true → ⊥) → result ≡ Err Store }
{
    let found = text_read::<K>(text)?;
    Ok(found.to_owned(alloc)?)
}
