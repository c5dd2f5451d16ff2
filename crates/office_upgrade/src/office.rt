//! An office that is opened, whatever known version its tables have.

ghost use Rattle.std.specs.Prelude.{Err, None, Some, ◌≡◌, false, IfOk, IfErr, IsTrue};
ghost use Rattle.sqlite.specs.State.{Survives};
ghost use Rattle.sqlite.specs.Held.{state};
ghost use Rattle.office_rows.specs.Rows.{this_version, version_of};
ghost use Rattle.office_contents.specs.Faults.{IsFailure};
ghost use Rattle.office_contents.specs.Tables.{IsOffice, tables_of};
ghost use Rattle.office_tables.specs.Opening as opening;
ghost use Rattle.office_tables.specs.Opening.{IfRefused, IfTaken, HasSameTables, HasVersion, has_office};
ghost use Rattle.office_contents.specs.declared.fault.TableFault.TheVariants.{NotAnOffice, OtherVersion};
ghost use Rattle.office_tables.specs.Moving.{AllRows, BecomesAt};
ghost use Rattle.office_contents.specs.Versions.{IfKnownOffice, version_number};
ghost use Rattle.office_upgrade.specs.Upgrading.{IsOlder, IsUpgrade, IsLeftAt, TellsVersion, TellsKnown, TellsUnknown, Upgrades, UpgradeLasts, TakesUp, HasSameOffice, LeavesOffice, GoesBack, OpensOlder, NewestSurvives, HasUnknownVersion};
ghost use Rattle.office_contents.specs.declared.version.TableVersion.{TableVersion as Version};

use crate::upgrading::upgrade;
use office_tables::TableFault;
use sqlite::{Alter, Connection};

/// Takes a connection that shows an office of a known version, and makes its tables those of the newest version, in
/// one transaction.
///
/// Fails with `NotAnOffice`, `OtherVersion`, `Memory` or `Store`, and hands the connection back; a refusal changes
/// nothing.
pub fn upgrade_office<S: Alter>(
    mut conn: Connection<S>,
) -> Result<Connection<S>, (Connection<S>, TableFault)>
    requires outside { (state S.Store conn).in_transaction ≡ false }
    ensures outside { IfOk result (λ office. (state S.Store office).in_transaction ≡ false) }
    ensures was_open { IfTaken S.Store result (λ _. IsTrue (state S.Store conn).is_open) }
    // Of an office of an older version the store is open.
    ensures is_open { IfTaken S.Store result (OpensOlder (state S.Store conn)) }
    // Tables that show no older version stay as they are, those that are the newest among them.
    ensures kept { IfTaken S.Store result (λ s.
        (IsOlder (state S.Store conn).now → ⊥) → HasSameTables (state S.Store conn) s) }
    ensures newest { IfTaken S.Store result (λ s. IsOffice (state S.Store conn).now
        → version_of (tables_of (state S.Store conn).now) ≡ Some this_version
        → HasSameTables (state S.Store conn) s) }
    ensures newest_survives { IfOk result (λ office.
        NewestSurvives (state S.Store conn) (state S.Store office)) }
    ensures upgraded { IfTaken S.Store result (Upgrades (state S.Store conn)) }
    ensures found { IfTaken S.Store result (TakesUp (state S.Store conn)) }
    ensures version { IfTaken S.Store result (λ _.
        IsTrue (has_office (state S.Store conn).now.schema)
        × ((known : Version) × HasVersion (state S.Store conn).now (version_number known))) }
    // Where the tables are an office's, their own version is known.
    ensures known_as_one { IfTaken S.Store result (λ _.
        IfKnownOffice (state S.Store conn).now TellsKnown) }
    ensures survives { IfOk result (λ office.
        Survives (state S.Store conn) (state S.Store office) (IsUpgrade (state S.Store conn).now)) }
    ensures leaves { IfTaken S.Store result (LeavesOffice (state S.Store conn)) }
    ensures durable { IfTaken S.Store result (UpgradeLasts (state S.Store conn)) }

    // A refusal leaves the office as it was.
    ensures refused_outside { IfErr result (λ e. (state S.Store e.0).in_transaction ≡ false) }
    ensures refused_same { IfRefused S.Store result (λ s _. HasSameTables (state S.Store conn) s) }
    ensures refused { IfRefused S.Store result (λ s _. HasSameOffice (state S.Store conn) s) }
    ensures goes_back { IfRefused S.Store result (λ s _. GoesBack (state S.Store conn) s) }
    ensures refused_newest_survives { IfErr result (λ e.
        NewestSurvives (state S.Store conn) (state S.Store e.0)) }
    // `NotAnOffice` and `OtherVersion` leave no other trees than those that were there.
    ensures told_survives { IfErr result (λ e.
        (IsFailure e.1 → ⊥) → Survives (state S.Store conn) (state S.Store e.0) (λ _. ⊥)) }
    ensures refused_survives { IfErr result (λ e.
        Survives (state S.Store conn) (state S.Store e.0) (IsUpgrade (state S.Store conn).now)) }
    ensures refused_leaves { IfRefused S.Store result (λ s _. LeavesOffice (state S.Store conn) s) }
    ensures not_office { IfRefused S.Store result (λ _ fault.
        fault ≡ NotAnOffice → opening.NotAnOffice (state S.Store conn).now) }
    ensures other_version { IfRefused S.Store result (λ _ fault.
        fault ≡ OtherVersion → HasUnknownVersion (state S.Store conn).now) }
    ensures no_table { has_office (state S.Store conn).now.schema ≡ false
        → result ≡ Err (conn, NotAnOffice) }
    // Where the tables are an office's, it says so of their own version.
    ensures unknown { IfRefused S.Store result (λ _ fault. IfKnownOffice (state S.Store conn).now
        (λ t. fault ≡ NotAnOffice → version_of t ≡ None)) }
    ensures known_as_other { IfRefused S.Store result (λ _ fault.
        IfKnownOffice (state S.Store conn).now (λ t. fault ≡ OtherVersion → TellsUnknown t)) }
    // Of an office that tells its version, and of what was left of one, it says neither.
    ensures failure { IfRefused S.Store result (λ _ fault. (version : Version) (rows : AllRows)
        → BecomesAt version (state S.Store conn).now rows → TellsVersion version rows
        → IsFailure fault) }
    ensures left_failure { IfRefused S.Store result (λ _ fault. IsTrue (state S.Store conn).is_open
        → (version : Version) (rows : AllRows) → TellsVersion version rows
        → IsLeftAt version rows (state S.Store conn).now.trees → IsFailure fault) }
{
    // What the connection says of its state, and of its schema.
    let _is_settled = conn.is_autocommit();
    let _schema = conn.schema();
    match upgrade(&mut conn) {
        Ok(()) => Ok(conn),
        Err(stopped) => Err((conn, stopped)),
    }
}
