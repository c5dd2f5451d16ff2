//! Classes and collections.

ghost use Rattle.std.specs.Prelude.{◌≡◌, option_map, if◌then◌else◌};
ghost use Rattle.office_rows.specs.Rows.{class_named, has_class, with_class, with_new_class, with_years, has_collection, with_collection, with_new_collection};
ghost use Rattle.office_contents.specs.Contents.{LeavesContents, LeavesOnce};
ghost use Rattle.office_contents.specs.Calls.{GoesOnInside, Keeps, Tells, Writes};

use crate::rows::read_first;
use office_contents::{Result, ask, change};
use sqlite::{Alter, Transaction, params};

/// The years of the class of that name, -1 where its deposits are kept permanently; `None` where there is no such class.
///
/// Fails with `Memory` or `Store`.
pub fn class_of<S: Alter>(tx: &mut Transaction<'_, S>, name: &str) -> Result<Option<i64>>
    ensures inside { GoesOnInside S.Store tx.old.conn tx.new.conn result }
    ensures same { Keeps S.Store tx.old.conn.now tx.new.conn.now result }
    ensures found { Tells S.Store tx.old.conn.now tx.new.conn.now result (λ tables found.
        found ≡ option_map (λ c. c.years) (class_named name.now tables.classes)) }
{
    let rows = ask(tx, "SELECT years FROM class WHERE name = ?1", params![name])?;
    read_first(&rows)
}

/// Gives the years to the class of that name, and says how many classes that were.
fn revise_class<S: Alter>(tx: &mut Transaction<'_, S>, name: &str, years: i64) -> Result<usize>
    ensures inside { GoesOnInside S.Store tx.old.conn tx.new.conn result }
    ensures becomes { Writes S.Store tx.old.conn.now tx.new.conn.now result
        (with_years name.now years) }
    ensures contents { LeavesContents S.Store tx.old.conn.now tx.new.conn.now result }
    ensures counted { Tells S.Store tx.old.conn.now tx.new.conn.now result (λ tables count.
        count ≡ (if has_class name.now tables then 1 else 0)) }
{
    change(
        tx,
        "UPDATE class SET years = ?2 WHERE name = ?1",
        params![name, years],
    )
}

/// Adds a class at the end.
fn add_class<S: Alter>(tx: &mut Transaction<'_, S>, name: &str, years: i64) -> Result<usize>
    ensures inside { GoesOnInside S.Store tx.old.conn tx.new.conn result }
    ensures becomes { Writes S.Store tx.old.conn.now tx.new.conn.now result
        (with_new_class name.now years) }
    ensures contents { LeavesContents S.Store tx.old.conn.now tx.new.conn.now result }
{
    change(
        tx,
        "INSERT INTO class (name, years) VALUES (?1, ?2)",
        params![name, years],
    )
}

/// Adds the class, or sets its years where there is a class of that name; -1 keeps its deposits permanently.
///
/// Fails with `Memory` or `Store`.
pub fn put_class<S: Alter>(tx: &mut Transaction<'_, S>, name: &str, years: i64) -> Result<()>
    ensures inside { GoesOnInside S.Store tx.old.conn tx.new.conn result }
    ensures becomes { Writes S.Store tx.old.conn.now tx.new.conn.now result
        (with_class name.now years) }
    ensures contents { LeavesContents S.Store tx.old.conn.now tx.new.conn.now result }
    ensures once { LeavesOnce S.Store tx.old.conn.now tx.new.conn.now result }
{
    if revise_class(tx, name, years)? == 0 {
        add_class(tx, name, years)?;
    }
    Ok(())
}

/// Whether there is a collection of that name.
///
/// Fails with `Memory` or `Store`.
pub fn has_collection<S: Alter>(tx: &mut Transaction<'_, S>, name: &str) -> Result<bool>
    ensures inside { GoesOnInside S.Store tx.old.conn tx.new.conn result }
    ensures same { Keeps S.Store tx.old.conn.now tx.new.conn.now result }
    ensures found { Tells S.Store tx.old.conn.now tx.new.conn.now result (λ tables found.
        found ≡ has_collection name.now tables) }
{
    let rows = ask(
        tx,
        "SELECT name FROM collection WHERE name = ?1",
        params![name],
    )?;
    Ok(!rows.is_empty())
}

/// Adds a collection at the end.
fn add_collection<S: Alter>(tx: &mut Transaction<'_, S>, name: &str) -> Result<usize>
    ensures inside { GoesOnInside S.Store tx.old.conn tx.new.conn result }
    ensures becomes { Writes S.Store tx.old.conn.now tx.new.conn.now result
        (with_new_collection name.now) }
    ensures contents { LeavesContents S.Store tx.old.conn.now tx.new.conn.now result }
{
    change(
        tx,
        "INSERT INTO collection (name) VALUES (?1)",
        params![name],
    )
}

/// Adds the collection; where it is there already, nothing changes.
///
/// Fails with `Memory` or `Store`.
pub fn put_collection<S: Alter>(tx: &mut Transaction<'_, S>, name: &str) -> Result<()>
    ensures inside { GoesOnInside S.Store tx.old.conn tx.new.conn result }
    ensures becomes { Writes S.Store tx.old.conn.now tx.new.conn.now result
        (with_collection name.now) }
    ensures contents { LeavesContents S.Store tx.old.conn.now tx.new.conn.now result }
    ensures once { LeavesOnce S.Store tx.old.conn.now tx.new.conn.now result }
{
    if !has_collection(tx, name)? {
        add_collection(tx, name)?;
    }
    Ok(())
}
