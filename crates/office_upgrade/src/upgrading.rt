//! Opening a store whose office may have the tables of an older version.

ghost use Rattle.std.specs.Prelude.{◌⊎◌, Ok, Err, ◌≡◌, ◌≢◌, true, false, IfErr, OnOk, OnErr, IsTrue, Some, None};
ghost use Rattle.sqlite.specs.State.{HasCleanDisk, Survives};
ghost use Rattle.sqlite.specs.Held.{state};
ghost use Rattle.sqlite.specs.Tree.{Trees};
ghost use Rattle.office_rows.specs.Rows.{this_version, version_of};
ghost use Rattle.office_contents.specs.Faults.{IsFailure};
ghost use Rattle.office_contents.specs.Tables.{IsOffice, tables_of};
ghost use Rattle.office_contents.specs.Calls.{CommitsNothing, ContinuesInTurn};
ghost use Rattle.office_tables.specs.Opening.{ShowsVersion, has_office, HasVersion, NotAnOffice, HasSameTables};
ghost use Rattle.office_contents.specs.declared.fault.TableFault.TheVariants as fault;
ghost use Rattle.office_tables.specs.Moving.{AllRows, BecomesAt, renewed};
ghost use Rattle.office_contents.specs.Versions.{Newest, version_number};
ghost use Rattle.office_upgrade.specs.Upgrading.{IsOfficeOf, IsOlder, IsUpgrade, IsRenewed, IsLeftAt, HasUnknownVersion, TellsVersion};
ghost use Rattle.office_contents.specs.declared.version.TableVersion.{TableVersion as Version};

use office_tables::{TableFault, has_office, renew, version_told};
use sqlite::{Alter, Connection, Transaction};

/// Makes the tables of the newest version of those that are found, and says whether there was anything to do.
fn take_over<S: Alter>(tx: &mut Transaction<'_, S>) -> Result<bool, TableFault>
    ensures same_reference { tx.new.conn.ghost_name ≡ tx.old.conn.ghost_name }
    ensures stays { CommitsNothing S.Store tx.old.conn.now tx.new.conn.now }
    ensures goes_on { ContinuesInTurn S.Store tx.old.conn.now tx.new.conn.now result }
    ensures was_open { HasCleanDisk (state S.Store tx.new.conn.now)
        → OnOk result (IsTrue (state S.Store tx.old.conn.now).is_open) }
    ensures renewed { HasCleanDisk (state S.Store tx.new.conn.now)
        → OnOk result
        (IsRenewed (state S.Store tx.old.conn.now).now (state S.Store tx.new.conn.now).now) }
    ensures same { HasCleanDisk (state S.Store tx.new.conn.now) → result ≡ Ok false
        → (state S.Store tx.new.conn.now).now ≡ (state S.Store tx.old.conn.now).now }
    ensures older { HasCleanDisk (state S.Store tx.new.conn.now) → result ≡ Ok true
        → IsOffice (state S.Store tx.old.conn.now).now
        → version_of (tables_of (state S.Store tx.old.conn.now).now) ≢ Some this_version }
    ensures was_older { HasCleanDisk (state S.Store tx.new.conn.now) → result ≡ Ok true
        → IsOlder (state S.Store tx.old.conn.now).now }
    ensures newest { HasCleanDisk (state S.Store tx.new.conn.now) → result ≡ Ok false
        → HasVersion (state S.Store tx.old.conn.now).now (version_number Newest) }
    ensures known { HasCleanDisk (state S.Store tx.new.conn.now)
        → OnOk result
        ((known : Version)
        × HasVersion (state S.Store tx.old.conn.now).now (version_number known)) }
    ensures not_office { HasCleanDisk (state S.Store tx.new.conn.now)
        → result ≡ Err fault.NotAnOffice → ShowsVersion (state S.Store tx.old.conn.now).now None }
    ensures other_version { HasCleanDisk (state S.Store tx.new.conn.now)
        → result ≡ Err fault.OtherVersion → HasUnknownVersion (state S.Store tx.old.conn.now).now }
{
    match version_told(tx)? {
        Some(version) => renew(tx, version),
        None => Err(TableFault::NotAnOffice),
    }
}

/// Makes the tables of the newest version of those of the office that is found, in one transaction. The newest
/// version stays as it is.
///
/// Fails with `NotAnOffice` as opening does; with `OtherVersion` where the row of the office has none of the known
/// versions; with `Memory` or `Store`. A refusal changes nothing.
pub fn upgrade<S: Alter>(conn: &mut Connection<S>) -> Result<(), TableFault>
    requires outside { (state S.Store conn.old).in_transaction ≡ false }
    ensures outside { (state S.Store conn.new).in_transaction ≡ false }
    // A crash leaves what it could leave before. Of an older version it may also leave the office that was there, with
    // the newest tables.
    ensures survives { Survives (state S.Store conn.old) (state S.Store conn.new)
        (IsUpgrade (state S.Store conn.old).now) }
    // An answer that is no failure makes nothing.
    ensures told_survives { IfErr result (λ stopped. (IsFailure stopped → ⊥)
        → Survives (state S.Store conn.old) (state S.Store conn.new) (λ _. ⊥)) }
    // That office has the newest tables then, and all of it is committed.
    ensures upgraded { HasCleanDisk (state S.Store conn.new)
        → OnOk result
        ((version : Version) (rows : AllRows) → IsOfficeOf version (state S.Store conn.old).now rows
        → (state S.Store conn.old).committed ≡ (state S.Store conn.old).now
        → IsTrue (state S.Store conn.new).is_open
        → BecomesAt Newest (state S.Store conn.new).now (renewed version rows)
        × ((state S.Store conn.new).committed ≡ (state S.Store conn.new).now)) }
    // And a crash leaves that alone.
    ensures durable { HasCleanDisk (state S.Store conn.new)
        → OnOk result
        ((version : Version) (rows : AllRows) → IsOfficeOf version (state S.Store conn.old).now rows
        → (state S.Store conn.old).committed ≡ (state S.Store conn.old).now
        → IsTrue (state S.Store conn.old).is_open → (left : Trees)
        → (state S.Store conn.new).may_leave left → IsLeftAt Newest (renewed version rows) left) }
    ensures was_open { HasCleanDisk (state S.Store conn.new)
        → OnOk result (IsTrue (state S.Store conn.old).is_open) }
    // The store is open, unless the newest version was found.
    ensures is_open { HasCleanDisk (state S.Store conn.new)
        → OnOk result
        (HasVersion (state S.Store conn.old).now (version_number Newest)
        ⊎ IsTrue (state S.Store conn.new).is_open) }
    // Tables that show no older version stay as they are, those that are the newest among them.
    ensures kept { HasCleanDisk (state S.Store conn.new)
        → OnOk result
        ((IsOlder (state S.Store conn.old).now → ⊥)
        → HasSameTables (state S.Store conn.old) (state S.Store conn.new)) }
    ensures newest { HasCleanDisk (state S.Store conn.new)
        → OnOk result
        (IsOffice (state S.Store conn.old).now
        → version_of (tables_of (state S.Store conn.old).now) ≡ Some this_version
        → HasSameTables (state S.Store conn.old) (state S.Store conn.new)) }
    ensures refused { HasCleanDisk (state S.Store conn.new)
        → OnErr result (HasSameTables (state S.Store conn.old) (state S.Store conn.new)) }
    ensures opened { HasCleanDisk (state S.Store conn.new)
        → OnOk result
        (IsTrue (has_office (state S.Store conn.old).now.schema)
        × ((known : Version) × HasVersion (state S.Store conn.old).now (version_number known))) }
    ensures not_office { HasCleanDisk (state S.Store conn.new) → result ≡ Err fault.NotAnOffice
        → NotAnOffice (state S.Store conn.old).now }
    ensures other_version { HasCleanDisk (state S.Store conn.new) → result ≡ Err fault.OtherVersion
        → HasUnknownVersion (state S.Store conn.old).now }
    ensures no_table { has_office (state S.Store conn.old).now.schema ≡ false
        → result ≡ Err fault.NotAnOffice }
    ensures untouched { has_office (state S.Store conn.old).now.schema ≡ false
        → conn.new ≡ conn.old }
    // Of an office of a known version it says neither.
    ensures failure { HasCleanDisk (state S.Store conn.new)
        → IfErr result (λ stopped.
        (version : Version) (rows : AllRows) → BecomesAt version (state S.Store conn.old).now rows
        → TellsVersion version rows → IsFailure stopped) }
{
    // What the connection says of its state.
    let _is_settled = conn.is_autocommit();
    if !has_office(conn.schema()) {
        return Err(TableFault::NotAnOffice);
    }
    let mut tx = conn.transaction();
    match take_over(&mut tx) {
        Ok(true) => match tx.commit() {
            Ok(()) => Ok(()),
            Err(error) => Err(TableFault::from(error)),
        },
        Ok(false) => {
            tx.rollback();
            Ok(())
        }
        Err(stopped) => {
            tx.rollback();
            Err(stopped)
        }
    }
}
