//! The tables of an older version: the newer ones are made beside them, and have their rows.

ghost use Rattle.std.specs.Prelude.{◌≡◌, ◌≢◌, Ok, Err, OnOk, false, map, true};
ghost use Rattle.sqlite.specs.State.{HasCleanDisk};
ghost use Rattle.sqlite.specs.Held.{state};
ghost use Rattle.office_rows.specs.Rows.{this_version};
ghost use Rattle.office_contents.specs.Calls.{CommitsNothing, ContinuesInTurn, GoesOnInTurn, GoesOnInside};
ghost use Rattle.office_contents.specs.Versions.{Newest, version_number};
ghost use Rattle.office_tables.specs.Moving.{AllRows, all_in_version, BecomesAt, TakesOver, renewed};
ghost use Rattle.office_contents.specs.declared.version.TableVersion.{TableVersion as Version};
ghost use Rattle.office_contents.specs.declared.version.TableVersion.TheVariants.{Third, Fourth, Fifth};

use crate::creating::define;
use office_contents::{NEWEST_VERSION, Result, TableFault, change};
use sqlite::{Alter, Transaction, params};

/// Makes a newer table beside an older one, copies the rows, and empties the older one.
fn take_over<S: Alter>(
    tx: &mut Transaction<'_, S>,
    tables: &[&str],
    copying: &str,
    emptying: &str,
) -> Result<()>
    ensures inside { GoesOnInTurn S.Store tx.old.conn tx.new.conn result }
    ensures ran { HasCleanDisk (state S.Store tx.new.conn.now)
        → OnOk result
        (TakesOver S.Store
        (record {
          tables = map (λ t. t.now) tables.now;
          copying = copying.now;
          emptying = emptying.now;
        }) tx.old.conn.now tx.new.conn.now) }
{
    define(tx, tables)?;
    change(tx, copying, &[])?;
    change(tx, emptying, &[])?;
    Ok(())
}

/// Makes the tables of version 4 of those of version 3: that of holds that may name a class, with the holds. The row of the
/// office tells the older version still.
///
/// Fails with `Memory` or `Store`.
pub fn move_holds<S: Alter>(tx: &mut Transaction<'_, S>) -> Result<()>
    ensures inside { GoesOnInTurn S.Store tx.old.conn tx.new.conn result }
    ensures moved { HasCleanDisk (state S.Store tx.new.conn.now) → (rows : AllRows)
        → BecomesAt Third (state S.Store tx.old.conn.now).now rows
        → OnOk result (BecomesAt Fourth (state S.Store tx.new.conn.now).now rows) }
{
    take_over(
        tx,
        &[
            "CREATE TABLE hold_4 (number INTEGER PRIMARY KEY, deposit INTEGER, collection TEXT, class TEXT, matter TEXT NOT NULL, placed INTEGER NOT NULL, released INTEGER) STRICT",
            "CREATE INDEX hold_4_deposit ON hold_4 (deposit)",
            "CREATE INDEX hold_4_collection ON hold_4 (collection)",
            "CREATE INDEX hold_4_class ON hold_4 (class)",
        ],
        "INSERT INTO hold_4 (number, deposit, collection, class, matter, placed, released) SELECT number, deposit, collection, NULL, matter, placed, released FROM hold ORDER BY number",
        "DELETE FROM hold",
    )
}

/// Makes the tables of version 5 of those of version 4: that of rules with days, with the rules. The row of the office tells the
/// older version still.
///
/// Fails with `Memory` or `Store`.
pub fn move_rules<S: Alter>(tx: &mut Transaction<'_, S>) -> Result<()>
    ensures inside { GoesOnInTurn S.Store tx.old.conn tx.new.conn result }
    ensures moved { HasCleanDisk (state S.Store tx.new.conn.now) → (rows : AllRows)
        → BecomesAt Fourth (state S.Store tx.old.conn.now).now rows
        → OnOk result (BecomesAt Fifth (state S.Store tx.new.conn.now).now rows) }
{
    take_over(
        tx,
        &[
            "CREATE TABLE rule_5 (place INTEGER PRIMARY KEY, effect INTEGER NOT NULL, role TEXT NOT NULL, action TEXT NOT NULL, collection TEXT NOT NULL, class TEXT NOT NULL, first INTEGER NOT NULL, last INTEGER NOT NULL) STRICT",
        ],
        "INSERT INTO rule_5 (place, effect, role, action, collection, class, first, last) SELECT place, effect, role, action, collection, class, -25567, 2859848 FROM rule ORDER BY place",
        "DELETE FROM rule",
    )
}

/// Notes in the row of the office that its tables are of the newest version.
fn note_version<S: Alter>(tx: &mut Transaction<'_, S>) -> Result<usize>
    ensures inside { GoesOnInside S.Store tx.old.conn tx.new.conn result }
    ensures noted { HasCleanDisk (state S.Store tx.new.conn.now) → (rows : AllRows)
        → BecomesAt Newest (state S.Store tx.old.conn.now).now rows
        → OnOk result
        (BecomesAt Newest (state S.Store tx.new.conn.now).now (all_in_version this_version rows)) }
{
    change(
        tx,
        "UPDATE office SET version = ?2 WHERE id = ?1",
        params![1u32, NEWEST_VERSION],
    )
}

/// Makes the tables of the newest version of those of this one, and says whether there was anything to do.
///
/// Fails with `OtherVersion` where the version is not known, and with `Memory` or `Store`.
pub fn renew<S: Alter>(tx: &mut Transaction<'_, S>, version: i64) -> Result<bool>
    ensures same_reference { tx.new.conn.ghost_name ≡ tx.old.conn.ghost_name }
    ensures stays { CommitsNothing S.Store tx.old.conn.now tx.new.conn.now }
    ensures goes_on { ContinuesInTurn S.Store tx.old.conn.now tx.new.conn.now result }
    ensures renewed { HasCleanDisk (state S.Store tx.new.conn.now)
        → OnOk result
        ((known : Version) (rows : AllRows) → version ≡ version_number known
        → BecomesAt known (state S.Store tx.old.conn.now).now rows
        → BecomesAt Newest (state S.Store tx.new.conn.now).now (renewed known rows)) }
    ensures known { OnOk result ((known : Version) × (version ≡ version_number known)) }
    ensures newest { result ≡ Ok false → (version ≡ version_number Newest) × (tx.new ≡ tx.old) }
    ensures older { result ≡ Ok true → version ≢ version_number Newest }
    ensures is_office { result ≢ Err TableFault.NotAnOffice }
    ensures other { result ≡ Err TableFault.OtherVersion → (known : Version)
        → version ≢ version_number known }
{
    match version {
        3 => {
            move_holds(tx)?;
            move_rules(tx)?;
            note_version(tx)?;
            Ok(true)
        }
        4 => {
            move_rules(tx)?;
            note_version(tx)?;
            Ok(true)
        }
        NEWEST_VERSION => Ok(false),
        _ => Err(TableFault::OtherVersion),
    }
}
