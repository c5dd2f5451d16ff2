//! What the rows of a query show, read as values.

ghost use Rattle.std.specs.Prelude.{◌≡◌, IfOk, IfErr, map, option_map, pos, slice_get};
ghost use Rattle.sqlite.specs.Order.{Row as SqlRow};
ghost use Rattle.sql_meaning.specs.Columns.{int_at};
ghost use Rattle.office_contents.specs.Faults.{IsFailure};

use office_contents::Result;
use sqlite::Row;
use std::alloc::Global;

/// A value that a row can show.
pub(crate) trait Shown: Drop {
    /// What a row shows.
    ghost shown_in: { SqlRow → Self };

    /// Reads what the row shows.
    fn read(row: &Row) -> Result<Self>
        ensures shown { IfOk result (λ value. value ≡ shown_in row.now) }
        ensures failure { IfErr result IsFailure };
}

impl Shown for i64 {
    ghost shown_in = { λ row. int_at row 0 };

    fn read(row: &Row) -> Result<i64> {
        Ok(row.get(0)?)
    }
}

/// What the first of the rows shows, if there is one.
pub(crate) fn read_first<T: Shown>(rows: &[Row]) -> Result<Option<T>>
    ensures shown { IfOk result (λ found.
        found ≡ option_map T.shown_in (slice_get rows.now 0)) }
    ensures failure { IfErr result IsFailure }
{
    match rows.first() {
        Some(row) => Ok(Some(T::read(row)?)),
        None => Ok(None),
    }
}

/// What each of the rows shows.
pub(crate) fn read_all<T: Shown>(alloc: Global, rows: &[Row]) -> Result<Vec<T>>
    ensures shown { IfOk result (λ all. all.items ≡ map T.shown_in rows.now) }
    ensures failure { IfErr result IsFailure }
{
    let mut all = Vec::new(alloc);
    for row in rows {
        all.push(T::read(row)?)?;
    }
    Ok(all)
}

/// The number in the first column of a row.
pub(crate) fn number_shown(row: &Row) -> Result<u32>
    ensures shown { IfOk result (λ number. pos number ≡ int_at row.now 0) }
    ensures failure { IfErr result IsFailure }
{
    Ok(row.get(0)?)
}

/// The number in the first column of the first row, if there is one.
pub(crate) fn first_number(rows: &[Row]) -> Result<Option<u32>>
    ensures shown { IfOk result (λ found.
        option_map pos found ≡ option_map (λ row. int_at row 0) (slice_get rows.now 0)) }
    ensures failure { IfErr result IsFailure }
{
    match rows.first() {
        Some(row) => Ok(Some(number_shown(row)?)),
        None => Ok(None),
    }
}
