//! An office that is found again: of what was left of one, its rows as they were. It speaks of databases, so of all that
//! can be said of one.

ghost use Rattle.std.specs.Prelude.{◌≡◌, Err, None, Some, false, IsTrue, IfOk, IfErr};
ghost use Rattle.sqlite.specs.State.{Survives};
ghost use Rattle.sqlite.specs.Held.{state};
ghost use Rattle.office_rows.specs.Rows.{Tables, this_version, version_of};
ghost use Rattle.office_contents.specs.Faults.{IsFailure};
ghost use Rattle.office_tables.specs.Opening as opening;
ghost use Rattle.office_tables.specs.Opening.{HasOtherVersion, HasVersion, IfRefused, IfTaken, HasSameTables, IsKnownAsOther, IsLeft, has_office};
ghost use Rattle.office_contents.specs.Versions.{IfKnownOffice};
ghost use Rattle.office_contents.specs.declared.fault.TableFault.TheVariants.{NotAnOffice, OtherVersion};
ghost use Rattle.office_tables.specs.Found.{GoesOnAs};

use crate::opening::open_tables;
use office_contents::TableFault;
use sqlite::{Alter, Connection};

/// Takes a connection that shows an office of this version. It doesn't test the rows of the other
/// tables.
///
/// Fails as `open_tables` does, and hands the connection back.
pub fn adopt<S: Alter>(
    mut conn: Connection<S>,
) -> Result<Connection<S>, (Connection<S>, TableFault)>
    requires outside { (state S.Store conn).in_transaction ≡ false }
    // The tables are as they were.
    ensures outside { IfOk result (λ office. (state S.Store office).in_transaction ≡ false) }
    ensures same { IfTaken S.Store result (HasSameTables (state S.Store conn)) }
    ensures survives { IfOk result (λ office.
        Survives (state S.Store conn) (state S.Store office) (λ _. ⊥)) }
    ensures version { IfTaken S.Store result (λ _.
        HasVersion (state S.Store conn).now this_version) }
    ensures has_table { IfTaken S.Store result (λ _.
        IsTrue (has_office (state S.Store conn).now.schema)) }
    ensures known_as_this { IfTaken S.Store result (λ _.
        IfKnownOffice (state S.Store conn).now (λ t. version_of t ≡ Some this_version)) }
    // What was left of an office goes on as that office.
    ensures found { IfTaken S.Store result (GoesOnAs (state S.Store conn)) }

    // A refusal leaves them so too.
    ensures refused_outside { IfErr result (λ e. (state S.Store e.0).in_transaction ≡ false) }
    ensures refused_same { IfRefused S.Store result (λ s _. HasSameTables (state S.Store conn) s) }
    ensures refused_survives { IfErr result (λ e.
        Survives (state S.Store conn) (state S.Store e.0) (λ _. ⊥)) }
    ensures refused { IfRefused S.Store result (λ s _. GoesOnAs (state S.Store conn) s) }
    // It is no office, or one of another version, exactly where `open_tables` says so.
    ensures not_office { IfRefused S.Store result (λ _ fault.
        fault ≡ NotAnOffice → opening.NotAnOffice (state S.Store conn).now) }
    ensures other_version { IfRefused S.Store result (λ _ fault.
        fault ≡ OtherVersion → HasOtherVersion (state S.Store conn).now this_version) }
    ensures no_table { has_office (state S.Store conn).now.schema ≡ false
        → result ≡ Err (conn, NotAnOffice) }
    // Where the tables are an office's of any known version, it says so of what they tell.
    ensures unknown { IfRefused S.Store result (λ _ fault. IfKnownOffice (state S.Store conn).now
        (λ t. fault ≡ NotAnOffice → version_of t ≡ None)) }
    ensures known_as_other { IfRefused S.Store result (λ _ fault.
        IfKnownOffice (state S.Store conn).now
        (λ t. fault ≡ OtherVersion → IsKnownAsOther t this_version)) }
    // Of what was left of an office of this version it says neither.
    ensures failure { IfRefused S.Store result (λ _ fault.
        IsTrue (state S.Store conn).is_open → (tables : Tables)
        → IsLeft tables (state S.Store conn).now.trees → version_of tables ≡ Some this_version
        → IsFailure fault) }
{
    // What the connection says of its state, and of its schema.
    let _is_settled = conn.is_autocommit();
    let _schema = conn.schema();
    match open_tables(&mut conn) {
        Ok(()) => Ok(conn),
        Err(stopped) => Err((conn, stopped)),
    }
}
