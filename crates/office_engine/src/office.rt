//! The office: requests over a connection to any store, each in one transaction.

ghost use Rattle.std.specs.Prelude.{◌≡◌, ◌≢◌, Err, IfErr, IfOk, IsTrue, None, OnErr, OnOk, Some, false};
ghost use Rattle.sqlite.specs.State.{HasCleanDisk, Survives};
ghost use Rattle.sqlite.specs.Held.{state};
ghost use Rattle.sqlite.specs.Tree.{Trees};
ghost use Rattle.office_contents.specs.Faults as faults;
ghost use Rattle.office_tables.specs.Opening as opening;
ghost use Rattle.office_tables.specs.Opening.{HasOtherVersion, HasVersion, IfRefused, IfTaken, HasSameTables, IsKnownAsOther, has_office};
ghost use Rattle.office_contents.specs.Tables.{IsOffice, tables_of};
ghost use Rattle.office_contents.specs.Schema.{no_schema};
ghost use Rattle.office_contents.specs.declared.fault.TableFault.TheVariants.{NotAnOffice, OtherVersion};
ghost use Rattle.office_rows.specs.Rows.{this_version, version_of};
ghost use Rattle.office_history.specs.Histories.{History};
ghost use Rattle.office_history.specs.Runs.{IsLegal, new_history};
ghost use Rattle.office_tables.specs.Found.{GoesOnAs};
ghost use Rattle.office_contents.specs.Versions.{IfKnownOffice, version_number};
ghost use Rattle.office_tables.specs.Moving.{AllRows, BecomesAt};
ghost use Rattle.office_contents.specs.declared.version.TableVersion.{TableVersion};
ghost use Rattle.office_upgrade.specs.Upgrading as rows;
ghost use Rattle.office_upgrade.specs.Upgrading.{HasUnknownVersion, IsOlder, IsUpgrade, NewestSurvives, TellsVersion, TellsKnown, TellsUnknown};
ghost use Rattle.office_engine.specs.Upgrading.{GoesBackAt, IsUpgradeOf, LeavesAt, OpensOlder, StaysAt, TakesUp, UpgradeLasts, Upgrades};
ghost use Rattle.office_engine.specs.Storing.{AllStayShut, AreToldDue, CommitsInstalled, CommitsRows, CommitsRun, CommitsRunRows, CommitsTo, CountsStock, IfClean, InTurn, InstallLasts, InstalledRowsLast, Installs, InstallsRows, IsStoredBy, IsLeftAt, IsLeftOf, IsToldByRows, IsToldStock, Lasts, LeavesEither, LeavesInstalled, LeavesInstalledRows, LeavesStored, LeavesStoredRows, LeavesMade, LeavesRows, LeavesRun, LeavesRunRows, ListsDue, RowsLast, Runs, RunsRows, TakesStep, TakesRowsStep, StaysShut, after_item, is_accepted, after_policy};

use crate::installing::install;
use crate::listing::{due_list, stock};
use crate::transacting::transact;
use office_core::{Answer, Day, Limits, Policy, Request};
use office_queries::Stock;
use office_tables::{TableFault, adopt};
use sqlite::{Alter, Connection};
use std::alloc::{AllocError, Global};
use std::marker::Model;

/// An office over a connection, which is outside a transaction. Contracts see it as the connection.
pub struct Office<S: Alter> {
    conn: Connection<S>,
}

impl<S: Alter + Drop> Drop for Office<S> {
    fn drop(self) {
        let Office { conn: _ } = self;
    }
}

impl<S: Alter> Model for Office<S> {
    ghost use Rattle.std.specs.Prelude.{◌≡◌, false};
    ghost use Rattle.sqlite.specs.Held.{Held, held_code};

    ghost Value = { Held S };

    ghost coded = { held_code S.code };

    ghost view = { λ o. o.conn };

    ghost invariant = { λ o. o.conn.in_transaction ≡ false };
}

impl<S: Alter> Office<S> {
    /// Makes an office with those limits in an empty database.
    ///
    /// Fails with `Store` where the database isn't empty, and with `Memory` or `Store`. The
    /// connection is handed back, its tables as they were.
    pub fn create(
        mut conn: Connection<S>,
        limits: Limits,
    ) -> Result<Office<S>, (Connection<S>, TableFault)>
        requires outside { (state S.Store conn).in_transaction ≡ false }
        ensures made { IfTaken S.Store result
            (IsStoredBy (new_history limits.deposits limits.holds)) }
        ensures open { IfTaken S.Store result (λ s. IsTrue s.is_open) }
        ensures survives { IfOk result (λ office.
            Survives (state S.Store conn) (state S.Store office)
            (IsLeftOf (new_history limits.deposits limits.holds))) }
        ensures durable { IfTaken S.Store result (λ s. (left : Trees) → s.may_leave left
            → IsLeftOf (new_history limits.deposits limits.holds) left) }
        ensures refused { IfRefused S.Store result (λ s _. HasSameTables (state S.Store conn) s) }
        ensures refused_outside { IfErr result (λ e. (state S.Store e.0).in_transaction ≡ false) }
        ensures refused_survives { IfErr result (λ e.
            Survives (state S.Store conn) (state S.Store e.0)
            (IsLeftOf (new_history limits.deposits limits.holds))) }
        ensures failure { IfErr result (λ e. faults.IsFailure e.1) }
        // What is there stays: a database that isn't empty is never made an office.
        ensures not_empty { (state S.Store conn).now.schema ≢ no_schema
            → result ≡ Err (conn, TableFault.Store) }
    {
        match office_tables::create(&mut conn, limits.deposits, limits.holds) {
            Ok(()) => Ok(Office { conn }),
            Err(stopped) => Err((conn, stopped)),
        }
    }

    /// Takes a connection that shows an office of this version. It doesn't test the rows of the
    /// other tables.
    ///
    /// Fails with `NotAnOffice` and `OtherVersion` as the tables tell, and with `Memory` or `Store`.
    /// The connection is handed back, its tables as they were.
    pub fn adopt(conn: Connection<S>) -> Result<Office<S>, (Connection<S>, TableFault)>
        requires outside { (state S.Store conn).in_transaction ≡ false }
        ensures same { IfTaken S.Store result (HasSameTables (state S.Store conn)) }
        ensures version { IfTaken S.Store result (λ _.
            HasVersion (state S.Store conn).now this_version) }
        ensures has_table { IfTaken S.Store result (λ _.
            IsTrue (has_office (state S.Store conn).now.schema)) }
        ensures known_as_this { IfTaken S.Store result (λ _.
            IfKnownOffice (state S.Store conn).now (λ t. version_of t ≡ Some this_version)) }
        ensures survives { IfOk result (λ office.
            Survives (state S.Store conn) (state S.Store office) (λ _. ⊥)) }
        // Whatever database was left, it shows that one.
        ensures found { IfTaken S.Store result (GoesOnAs (state S.Store conn)) }
        // What a crash left of an office goes on as that office, and is never told to be none, or one
        // of another version.
        ensures goes_on { IfTaken S.Store result (λ s.
            (h : History) → IsLeftOf h (state S.Store conn).now.trees → IsStoredBy h s) }
        ensures known { IfRefused S.Store result (λ _ fault.
            IsTrue (state S.Store conn).is_open → (h : History)
            → IsLegal h → IsLeftOf h (state S.Store conn).now.trees → faults.IsFailure fault) }

        ensures refused { IfRefused S.Store result (λ s _. HasSameTables (state S.Store conn) s) }
        ensures refused_outside { IfErr result (λ e. (state S.Store e.0).in_transaction ≡ false) }
        ensures refused_survives { IfErr result (λ e.
            Survives (state S.Store conn) (state S.Store e.0) (λ _. ⊥)) }
        ensures goes_back { IfRefused S.Store result (λ s _.
            (h : History) → IsLeftOf h (state S.Store conn).now.trees → IsStoredBy h s) }
        ensures not_office { IfRefused S.Store result (λ _ fault.
            fault ≡ NotAnOffice → opening.NotAnOffice (state S.Store conn).now) }
        ensures other_version { IfRefused S.Store result (λ _ fault.
            fault ≡ OtherVersion → HasOtherVersion (state S.Store conn).now this_version) }
        ensures no_table { has_office (state S.Store conn).now.schema ≡ false
            → result ≡ Err (conn, NotAnOffice) }
        // Where the tables are an office's of any known version, it says so of what they tell.
        ensures unknown { IfRefused S.Store result (λ _ fault.
            IfKnownOffice (state S.Store conn).now
            (λ t. fault ≡ NotAnOffice → version_of t ≡ None)) }
        ensures known_as_other { IfRefused S.Store result (λ _ fault.
            IfKnownOffice (state S.Store conn).now
            (λ t. fault ≡ OtherVersion → IsKnownAsOther t this_version)) }
    {
        match adopt(conn) {
            Ok(conn) => Ok(Office { conn }),
            Err(refused) => Err(refused),
        }
    }

    /// Takes a connection that shows an office whose tables are of a known version, and makes them those of the newest, in
    /// one transaction with one commit. Tables of the newest version stay as they are.
    ///
    /// Fails with `NotAnOffice` and `OtherVersion` as the tables tell, and with `Memory` or `Store`. The connection is handed
    /// back, its tables as they were.
    pub fn upgrade(conn: Connection<S>) -> Result<Office<S>, (Connection<S>, TableFault)>
        requires outside { (state S.Store conn).in_transaction ≡ false }
        ensures upgraded { IfTaken S.Store result (Upgrades (state S.Store conn)) }
        // What a crash left of an office of any of these versions goes on as that office.
        ensures found { IfTaken S.Store result (TakesUp (state S.Store conn)) }
        // Tables that show no older version stay as they are, those of this version among them.
        ensures kept { IfTaken S.Store result (λ s.
            (IsOlder (state S.Store conn).now → ⊥) → HasSameTables (state S.Store conn) s) }
        ensures newest { IfTaken S.Store result (λ s. IsOffice (state S.Store conn).now
            → version_of (tables_of (state S.Store conn).now) ≡ Some this_version
            → HasSameTables (state S.Store conn) s) }
        ensures newest_survives { IfOk result (λ office.
            NewestSurvives (state S.Store conn) (state S.Store office)) }
        ensures open { IfTaken S.Store result (λ _. IsTrue (state S.Store conn).is_open) }
        ensures is_open { IfTaken S.Store result (OpensOlder (state S.Store conn)) }
        ensures version { IfTaken S.Store result (λ _.
            IsTrue (has_office (state S.Store conn).now.schema)
            × ((known : TableVersion)
            × HasVersion (state S.Store conn).now (version_number known))) }
        ensures known_as_one { IfTaken S.Store result (λ _.
            IfKnownOffice (state S.Store conn).now TellsKnown) }
        ensures survives { IfOk result (λ office.
            Survives (state S.Store conn) (state S.Store office)
            (IsUpgradeOf (state S.Store conn).now)) }
        ensures durable { IfTaken S.Store result (UpgradeLasts (state S.Store conn)) }
        ensures leaves { IfTaken S.Store result (LeavesAt (state S.Store conn)) }
        // The same of whatever rows an office of a known version has, where no history pictures them.
        ensures upgraded_rows { IfTaken S.Store result (rows.Upgrades (state S.Store conn)) }
        ensures found_rows { IfTaken S.Store result (rows.TakesUp (state S.Store conn)) }
        ensures is_open_rows { IfTaken S.Store result (rows.OpensOlder (state S.Store conn)) }
        ensures survives_rows { IfOk result (λ office.
            Survives (state S.Store conn) (state S.Store office)
            (IsUpgrade (state S.Store conn).now)) }
        ensures durable_rows { IfTaken S.Store result (rows.UpgradeLasts (state S.Store conn)) }
        ensures leaves_rows { IfTaken S.Store result (rows.LeavesOffice (state S.Store conn)) }

        ensures refused_same { IfRefused S.Store result (λ s _. HasSameTables (state S.Store conn) s) }
        ensures refused { IfRefused S.Store result (λ s _. StaysAt (state S.Store conn) s) }
        ensures goes_back { IfRefused S.Store result (λ s _. GoesBackAt (state S.Store conn) s) }
        ensures goes_back_rows { IfRefused S.Store result (λ s _. rows.GoesBack (state S.Store conn) s) }
        ensures refused_outside { IfErr result (λ e. (state S.Store e.0).in_transaction ≡ false) }
        ensures refused_survives { IfErr result (λ e.
            Survives (state S.Store conn) (state S.Store e.0)
            (IsUpgradeOf (state S.Store conn).now)) }
        ensures refused_survives_rows { IfErr result (λ e.
            Survives (state S.Store conn) (state S.Store e.0)
            (IsUpgrade (state S.Store conn).now)) }
        ensures refused_newest_survives { IfErr result (λ e.
            NewestSurvives (state S.Store conn) (state S.Store e.0)) }
        // `NotAnOffice` and `OtherVersion` leave no other trees than those that were there.
        ensures told_survives { IfErr result (λ e.
            (faults.IsFailure e.1 → ⊥)
            → Survives (state S.Store conn) (state S.Store e.0) (λ _. ⊥)) }
        ensures refused_leaves { IfRefused S.Store result (λ s _. LeavesAt (state S.Store conn) s) }
        ensures refused_leaves_rows { IfRefused S.Store result (λ s _.
            rows.LeavesOffice (state S.Store conn) s) }
        ensures not_office { IfRefused S.Store result (λ _ fault.
            fault ≡ NotAnOffice → opening.NotAnOffice (state S.Store conn).now) }
        ensures other_version { IfRefused S.Store result (λ _ fault.
            fault ≡ OtherVersion → HasUnknownVersion (state S.Store conn).now) }
        ensures no_table { has_office (state S.Store conn).now.schema ≡ false
            → result ≡ Err (conn, NotAnOffice) }
        // Where the tables are an office's, it says so of their own version.
        ensures unknown { IfRefused S.Store result (λ _ fault.
            IfKnownOffice (state S.Store conn).now
            (λ t. fault ≡ NotAnOffice → version_of t ≡ None)) }
        ensures known_as_other { IfRefused S.Store result (λ _ fault.
            IfKnownOffice (state S.Store conn).now
            (λ t. fault ≡ OtherVersion → TellsUnknown t)) }
        // An office of one of these versions, and what a crash left of one, is never told to be none, or one of another version:
        // whatever its rows are, where they tell their version.
        ensures known { IfRefused S.Store result (λ _ fault.
            IsTrue (state S.Store conn).is_open → (version : TableVersion) (h : History) → IsLegal h
            → IsLeftAt version h (state S.Store conn).now.trees → faults.IsFailure fault) }
        ensures failure { IfRefused S.Store result (λ _ fault.
            (version : TableVersion) (all : AllRows) → BecomesAt version (state S.Store conn).now all
            → TellsVersion version all → faults.IsFailure fault) }
        ensures left_failure { IfRefused S.Store result (λ _ fault.
            IsTrue (state S.Store conn).is_open → (version : TableVersion) (all : AllRows)
            → TellsVersion version all
            → rows.IsLeftAt version all (state S.Store conn).now.trees → faults.IsFailure fault) }
    {
        match office_upgrade::upgrade_office(conn) {
            Ok(conn) => Ok(Office { conn }),
            Err(handed_back) => Err(handed_back),
        }
    }

    /// Installs a policy, in place of the one before: all of it, or nothing.
    ///
    /// Fails with `Memory` or `Store`.
    pub fn install(&mut self, alloc: Global, policy: &Policy) -> Result<(), TableFault>
        ensures failure { IfErr result faults.IsFailure }
        ensures installed { IfClean S.Store self.old self.new (λ old new.
            OnOk result (Installs old new policy.now)) }
        ensures open { IfClean S.Store self.old self.new (λ old _.
            OnOk result (IsTrue old.is_open)) }
        ensures kept { IfClean S.Store self.old self.new (λ old new.
            OnErr result (HasSameTables old new)) }
        ensures survives { Survives (state S.Store self.old) (state S.Store self.new)
            (CommitsTo (state S.Store self.old) (after_policy policy.now)) }
        ensures durable { IfClean S.Store self.old self.new (λ old new.
            OnOk result (InstallLasts old new policy.now)) }
        ensures leaves { IfClean S.Store self.old self.new (λ old new.
            LeavesEither old new (after_policy policy.now)) }
        ensures made { IfClean S.Store self.old self.new (λ old new.
            LeavesInstalled old new result) }
        // Whatever rows and contents the office has.
        ensures installed_rows { IfClean S.Store self.old self.new (λ old new.
            OnOk result (InstallsRows old new policy.now)) }
        ensures survives_rows { Survives (state S.Store self.old) (state S.Store self.new)
            (CommitsInstalled (state S.Store self.old) policy.now) }
        ensures durable_rows { IfClean S.Store self.old self.new (λ old new.
            OnOk result (InstalledRowsLast old new policy.now)) }
        ensures leaves_rows { IfClean S.Store self.old self.new (λ old new.
            LeavesInstalledRows old new policy.now) }
    {
        install(alloc, &mut self.conn, policy)
    }

    /// Answers a caller's request on that day, in one transaction with one commit. A request that is
    /// refused, or only asks, changes nothing.
    pub fn step(&mut self, alloc: Global, day: Day, caller: &str, request: &Request<'_>) -> Answer
        ensures served { IfClean S.Store self.old self.new (λ old new.
            TakesStep old new (day, caller.entry, request.now) result) }
        ensures kept { IfClean S.Store self.old self.new (λ old new.
            is_accepted result ≡ false → HasSameTables old new) }
        // Whatever rows the tables of the office hold, no answer rests on one that tells nothing.
        ensures rows { IfClean S.Store self.old self.new (λ old _.
            IsToldByRows old (day, caller.entry, request.now) result) }
        // Over a store that a fault has shut, it is a failure.
        ensures shut { IfClean S.Store self.old self.new (λ old new.
            StaysShut old new result) }
        ensures survives { Survives (state S.Store self.old) (state S.Store self.new)
            (CommitsTo (state S.Store self.old) (after_item (day, caller.entry, request.now))) }
        ensures durable { IfClean S.Store self.old self.new (λ old new.
            Lasts old new (day, caller.entry, request.now) result) }
        ensures leaves { IfClean S.Store self.old self.new (λ old new.
            LeavesEither old new (after_item (day, caller.entry, request.now))) }
        // Whatever was kept, it leaves no other trees than those that were there and those that the request made.
        ensures made { IfClean S.Store self.old self.new (λ old new.
            LeavesMade old new result) }
        // Whatever rows and contents the office has, an accepted change leaves what `serve_rows` makes
        // of them, and a refusal or a failure leaves them; a crash leaves those before or after.
        ensures takes_rows_step { IfClean S.Store self.old self.new (λ old new.
            TakesRowsStep old new (day, caller.entry, request.now) result) }
        ensures survives_rows { Survives (state S.Store self.old) (state S.Store self.new)
            (CommitsRows (state S.Store self.old) (day, caller.entry, request.now)) }
        ensures leaves_rows { IfClean S.Store self.old self.new (λ old new.
            LeavesRows old new (day, caller.entry, request.now)) }
        ensures durable_rows { IfClean S.Store self.old self.new (λ old new.
            RowsLast old new (day, caller.entry, request.now) result) }
    {
        transact(alloc, &mut self.conn, day, caller, request)
    }

    /// Answers requests one after the other, each with its day and its caller. The room for the
    /// answers is taken first: an `Err` has done nothing.
    pub fn run(
        &mut self,
        alloc: Global,
        items: &[(Day, &str, Request<'_>)],
    ) -> Result<Vec<Answer>, AllocError>
        ensures ran { IfClean S.Store self.old self.new (λ old new.
            IfOk result (λ answers. Runs old new items.now answers.items)) }
        // Whatever rows and contents the office has.
        ensures ran_rows { IfClean S.Store self.old self.new (λ old new.
            IfOk result (λ answers. RunsRows old new items.now answers.items)) }
        ensures in_turn { HasCleanDisk (state S.Store self.new)
            → IfOk result (λ answers. InTurn S.Store self.old self.new items.now answers.items) }
        ensures shut { IfClean S.Store self.old self.new (λ old new.
            IfOk result (λ answers. AllStayShut old new answers.items)) }
        ensures failed { OnErr result (self.new ≡ self.old) }
        ensures failed_leaves { OnErr result (LeavesStored (state S.Store self.new)) }
        ensures failed_leaves_rows { OnErr result (LeavesStoredRows (state S.Store self.new)) }
        // What a crash leaves has every change that was answered as accepted.
        ensures survives { IfOk result (λ answers.
            Survives (state S.Store self.old) (state S.Store self.new)
            (CommitsRun (state S.Store self.old) items.now answers.items)) }
        ensures leaves { IfClean S.Store self.old self.new (λ old new.
            IfOk result (λ answers. LeavesRun old new items.now answers.items)) }
        ensures survives_rows { IfOk result (λ answers.
            Survives (state S.Store self.old) (state S.Store self.new)
            (CommitsRunRows (state S.Store self.old) items.now answers.items)) }
        ensures leaves_rows { IfClean S.Store self.old self.new (λ old new.
            IfOk result (λ answers. LeavesRunRows old new items.now answers.items)) }
    {
        let mut answers = Vec::with_capacity(alloc, items.len())?;
        for item in items {
            answers.push_reserved(self.step(alloc, item.0, item.1, &item.2));
        }
        Ok(answers)
    }

    /// The numbers of the deposits that the caller may destroy on that day, ascending: those whose
    /// disposal by that caller on that day would be accepted.
    ///
    /// Fails with `Memory` or `Store`. Nothing changes.
    pub fn due_list(
        &mut self,
        alloc: Global,
        day: Day,
        caller: &str,
    ) -> Result<Vec<u32>, TableFault>
        ensures failure { IfErr result faults.IsFailure }
        ensures listed { IfClean S.Store self.old self.new (λ old new.
            IfOk result (λ numbers. ListsDue old new day caller.now numbers.items)) }
        ensures rows { IfClean S.Store self.old self.new (λ old _.
            IfOk result (λ numbers. AreToldDue old day caller.now numbers.items)) }
        ensures open { IfClean S.Store self.old self.new (λ old _.
            OnOk result (IsTrue old.is_open)) }
        ensures kept { IfClean S.Store self.old self.new HasSameTables }
        ensures survives { Survives (state S.Store self.old) (state S.Store self.new) (λ _. ⊥) }
    {
        due_list(alloc, &mut self.conn, day, caller)
    }

    /// How many different contents the files of the kept deposits have, and how many bytes these have together.
    ///
    /// Fails with `Memory` or `Store`. Nothing changes.
    pub fn stock(&mut self, alloc: Global) -> Result<Stock, TableFault>
        ensures failure { IfErr result faults.IsFailure }
        ensures counted { IfClean S.Store self.old self.new (λ old new.
            IfOk result (CountsStock old new)) }
        ensures rows { IfClean S.Store self.old self.new (λ old _.
            IfOk result (IsToldStock old)) }
        ensures open { IfClean S.Store self.old self.new (λ old _.
            OnOk result (IsTrue old.is_open)) }
        ensures kept { IfClean S.Store self.old self.new HasSameTables }
        ensures survives { Survives (state S.Store self.old) (state S.Store self.new) (λ _. ⊥) }
    {
        stock(alloc, &mut self.conn)
    }

    /// The connection, outside a transaction, its tables as they are.
    pub fn into_connection(self) -> Connection<S>
        ensures same { result ≡ self }
        ensures outside { (state S.Store result).in_transaction ≡ false }
    {
        let Office { conn } = self;
        conn
    }
}
