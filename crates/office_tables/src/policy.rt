//! The policy: the callers with their roles, and the rules.

ghost use Rattle.std.specs.Prelude.{◌≡◌, ℕ, IfOk, IfErr, map, option_map, slice_get, string_bytes};
ghost use Rattle.sql_meaning.specs.Columns.{bytes_at};
ghost use Rattle.office_contents.specs.Faults.{IsFailure};
ghost use Rattle.office_rows.specs.Rows.{caller_named, without_callers, without_rules, with_caller, with_rule, with_callers, with_rules, with_policy};
ghost use Rattle.office_contents.specs.Contents.{LeavesContents, LeavesOnce};
ghost use Rattle.office_rows.specs.Matching.{matching_rule};
ghost use Rattle.office_contents.specs.Calls.{GoesOnInTurn, GoesOnInside, Keeps, Shows, Tells, Writes};
ghost use Rattle.office_tables.specs.ShownPolicy.{shown_rule};

use crate::rows::{Shown, read_all, read_first};
use office_contents::{Result, ask, change};
use sqlite::{Alter, Row, Transaction, params};
use std::alloc::Global;
use std::marker::Model;

/// A caller and its role.
#[derive(Debug, Drop)]
pub struct CallerRow {
    pub name: String,
    pub role: String,
}

impl Model for CallerRow {
    ghost use Rattle.std.specs.Prelude.{List, ℕ, string_bytes, refl};
    ghost use Rattle.std.specs.Coded.{code_by, coded×, coded_list, coded_ℕ};
    ghost use Rattle.office_rows.specs.Rows.{CallerRow as Caller};

    ghost Value = { Caller };

    ghost coded = { code_by (List ℕ × List ℕ) (coded× (coded_list coded_ℕ) (coded_list coded_ℕ)) (λ (c : Caller). (c.name, c.role)) (λ p. record { name = p.0; role = p.1 }) (λ _. refl) };

    ghost view = { λ c. record { name = string_bytes c.name; role = string_bytes c.role } };
}

/// A rule of the policy.
#[derive(Debug, Drop)]
pub struct RuleRow {
    /// Its place among the rules, from 1.
    pub place: i64,
    /// 1 allows, 0 denies.
    pub effect: i64,
    pub role: String,
    pub action: String,
    pub collection: String,
    pub class: String,
    /// The days, both included, between which it counts, as day numbers.
    pub first: i64,
    pub last: i64,
}

impl Model for RuleRow {
    ghost use Rattle.std.specs.Prelude.{List, ℕ, ℤ, string_bytes, refl};
    ghost use Rattle.std.specs.Coded.{code_by, coded×, coded_list, coded_ℕ, coded_ℤ};
    ghost use Rattle.office_rows.specs.Rows.{RuleRow as Rule};

    ghost Value = { Rule };

    ghost coded = { code_by (ℤ × (ℤ × (List ℕ × (List ℕ × (List ℕ × (List ℕ × (ℤ × ℤ)))))))
        (coded× coded_ℤ (coded× coded_ℤ (coded× (coded_list coded_ℕ) (coded× (coded_list coded_ℕ)
        (coded× (coded_list coded_ℕ) (coded× (coded_list coded_ℕ) (coded× coded_ℤ coded_ℤ)))))))
        (λ (r : Rule).
        (r.place, (r.effect, (r.role, (r.action, (r.collection, (r.class, (r.first, r.last))))))))
        (λ p. record {
          place = p.0;
          effect = p.1.0;
          role = p.1.1.0;
          action = p.1.1.1.0;
          collection = p.1.1.1.1.0;
          class = p.1.1.1.1.1.0;
          first = p.1.1.1.1.1.1.0;
          last = p.1.1.1.1.1.1.1;
        })
        (λ _. refl) };

    ghost view = { λ r. record {
      place = r.place;
      effect = r.effect;
      role = string_bytes r.role;
      action = string_bytes r.action;
      collection = string_bytes r.collection;
      class = string_bytes r.class;
      first = r.first;
      last = r.last;
    } };
}

/// The row that shows the role of the caller of that name, if there is one.
fn rows_of_role<S: Alter>(tx: &mut Transaction<'_, S>, name: &str) -> Result<Vec<Row>>
    ensures inside { GoesOnInside S.Store tx.old.conn tx.new.conn result }
    ensures found { Shows S.Store tx.old.conn.now tx.new.conn.now result (λ tables rows.
        option_map (λ c. c.role) (caller_named name.now tables.callers)
        ≡ option_map (λ row. bytes_at row 0) (slice_get rows.items 0)) }
{
    ask(tx, "SELECT role FROM caller WHERE name = ?1", params![name])
}

/// A text in the first column of a row.
fn first_text(row: &Row) -> Result<String>
    ensures shown { IfOk result (λ text. string_bytes text ≡ bytes_at row.now 0) }
    ensures failure { IfErr result IsFailure }
{
    Ok(row.get(0)?)
}

/// The role of the caller of that name, if there is one.
///
/// Fails with `Memory` or `Store`.
pub fn role_of<S: Alter>(tx: &mut Transaction<'_, S>, name: &str) -> Result<Option<String>>
    ensures inside { GoesOnInside S.Store tx.old.conn tx.new.conn result }
    ensures same { Keeps S.Store tx.old.conn.now tx.new.conn.now result }
    ensures found { Tells S.Store tx.old.conn.now tx.new.conn.now result (λ tables found.
        option_map string_bytes found
        ≡ option_map (λ c. c.role) (caller_named name.now tables.callers)) }
{
    let rows = rows_of_role(tx, name)?;
    match rows.first() {
        Some(row) => Ok(Some(first_text(row)?)),
        None => Ok(None),
    }
}

/// The rows that show the rules.
fn rows_of_rules<S: Alter>(tx: &mut Transaction<'_, S>) -> Result<Vec<Row>>
    ensures inside { GoesOnInside S.Store tx.old.conn tx.new.conn result }
    ensures found { Shows S.Store tx.old.conn.now tx.new.conn.now result (λ tables rows.
        tables.rules ≡ map shown_rule rows.items) }
{
    ask(
        tx,
        "SELECT place, effect, role, action, collection, class, first, last FROM rule_5 ORDER BY place",
        &[],
    )
}

impl Shown for RuleRow {
    ghost shown_in = { shown_rule };

    fn read(row: &Row) -> Result<RuleRow> {
        Ok(RuleRow {
            place: row.get(0)?,
            effect: row.get(1)?,
            role: row.get(2)?,
            action: row.get(3)?,
            collection: row.get(4)?,
            class: row.get(5)?,
            first: row.get(6)?,
            last: row.get(7)?,
        })
    }
}

/// The rules, ascending by place.
///
/// Fails with `Memory` or `Store`.
pub fn rules<S: Alter>(alloc: Global, tx: &mut Transaction<'_, S>) -> Result<Vec<RuleRow>>
    ensures inside { GoesOnInside S.Store tx.old.conn tx.new.conn result }
    ensures same { Keeps S.Store tx.old.conn.now tx.new.conn.now result }
    ensures found { Tells S.Store tx.old.conn.now tx.new.conn.now result (λ tables rules.
        rules.items ≡ tables.rules) }
{
    let rows = rows_of_rules(tx)?;
    read_all(alloc, &rows)
}

/// The rule of the least place whose texts are `*` or these, and that counts on the day of that number; an absent
/// name is the empty text. `None` where no rule matches.
///
/// Fails with `Memory` or `Store`.
pub fn match_rule<S: Alter>(
    tx: &mut Transaction<'_, S>,
    role: &str,
    action: &str,
    collection: &str,
    class: &str,
    day: i64,
) -> Result<Option<RuleRow>>
    ensures inside { GoesOnInside S.Store tx.old.conn tx.new.conn result }
    ensures same { Keeps S.Store tx.old.conn.now tx.new.conn.now result }
    ensures found { Tells S.Store tx.old.conn.now tx.new.conn.now result (λ tables found.
        found ≡ matching_rule role.now action.now collection.now class.now day tables.rules) }
{
    let rows = ask(
        tx,
        "SELECT place, effect, role, action, collection, class, first, last FROM rule_5 WHERE collection IN ('*', ?3) AND class IN ('*', ?4) AND role IN ('*', ?1) AND action IN ('*', ?2) AND first <= ?5 AND last >= ?5 ORDER BY place LIMIT 1",
        params![role, action, collection, class, day],
    )?;
    read_first(&rows)
}

/// Takes out each caller.
fn drop_callers<S: Alter>(tx: &mut Transaction<'_, S>) -> Result<usize>
    ensures inside { GoesOnInside S.Store tx.old.conn tx.new.conn result }
    ensures becomes { Writes S.Store tx.old.conn.now tx.new.conn.now result without_callers }
    ensures contents { LeavesContents S.Store tx.old.conn.now tx.new.conn.now result }
{
    change(tx, "DELETE FROM caller", &[])
}

/// Takes out each rule.
fn drop_rules<S: Alter>(tx: &mut Transaction<'_, S>) -> Result<usize>
    ensures inside { GoesOnInside S.Store tx.old.conn tx.new.conn result }
    ensures becomes { Writes S.Store tx.old.conn.now tx.new.conn.now result without_rules }
    ensures contents { LeavesContents S.Store tx.old.conn.now tx.new.conn.now result }
{
    change(tx, "DELETE FROM rule_5", &[])
}

/// Adds a caller at the end.
fn add_caller<S: Alter>(tx: &mut Transaction<'_, S>, name: &str, role: &str) -> Result<usize>
    ensures inside { GoesOnInside S.Store tx.old.conn tx.new.conn result }
    ensures becomes { Writes S.Store tx.old.conn.now tx.new.conn.now result
        (with_caller (record { name = name.now; role = role.now })) }
    ensures contents { LeavesContents S.Store tx.old.conn.now tx.new.conn.now result }
{
    change(
        tx,
        "INSERT INTO caller (name, role) VALUES (?1, ?2)",
        params![name, role],
    )
}

/// Adds a rule at its place.
fn add_rule<S: Alter>(tx: &mut Transaction<'_, S>, rule: &RuleRow) -> Result<usize>
    ensures inside { GoesOnInside S.Store tx.old.conn tx.new.conn result }
    ensures becomes { Writes S.Store tx.old.conn.now tx.new.conn.now result (with_rule rule.now) }
    ensures contents { LeavesContents S.Store tx.old.conn.now tx.new.conn.now result }
{
    let role: &str = &rule.role;
    let action: &str = &rule.action;
    let collection: &str = &rule.collection;
    let class: &str = &rule.class;
    change(
        tx,
        "INSERT INTO rule_5 (place, effect, role, action, collection, class, first, last) VALUES (?1, ?2, ?3, ?4, ?5, ?6, ?7, ?8)",
        params![
            rule.place,
            rule.effect,
            role,
            action,
            collection,
            class,
            rule.first,
            rule.last
        ],
    )
}

/// Adds these callers in turn.
fn add_callers<S: Alter>(tx: &mut Transaction<'_, S>, callers: &[CallerRow]) -> Result<()>
    ensures inside { GoesOnInTurn S.Store tx.old.conn tx.new.conn result }
    ensures becomes { Writes S.Store tx.old.conn.now tx.new.conn.now result
        (with_callers callers.now) }
    ensures contents { LeavesContents S.Store tx.old.conn.now tx.new.conn.now result }
{
    for caller in callers {
        add_caller(tx, &caller.name, &caller.role)?;
    }
    Ok(())
}

/// Adds these rules in turn, each at its place.
fn add_rules<S: Alter>(tx: &mut Transaction<'_, S>, rules: &[RuleRow]) -> Result<()>
    ensures inside { GoesOnInTurn S.Store tx.old.conn tx.new.conn result }
    ensures becomes { Writes S.Store tx.old.conn.now tx.new.conn.now result (with_rules rules.now) }
    ensures contents { LeavesContents S.Store tx.old.conn.now tx.new.conn.now result }
{
    for rule in rules {
        add_rule(tx, rule)?;
    }
    Ok(())
}

/// Puts these callers and rules instead of all that were there, the rules sorted by their places.
///
/// Fails with `Memory` or `Store`, as where two callers have one name or two rules one place.
pub fn put_policy<S: Alter>(
    tx: &mut Transaction<'_, S>,
    callers: &[CallerRow],
    rules: &[RuleRow],
) -> Result<()>
    ensures inside { GoesOnInside S.Store tx.old.conn tx.new.conn result }
    ensures becomes { Writes S.Store tx.old.conn.now tx.new.conn.now result
        (with_policy callers.now rules.now) }
    ensures contents { LeavesContents S.Store tx.old.conn.now tx.new.conn.now result }
    ensures once { LeavesOnce S.Store tx.old.conn.now tx.new.conn.now result }
{
    drop_callers(tx)?;
    drop_rules(tx)?;
    add_callers(tx, callers)?;
    add_rules(tx, rules)?;
    Ok(())
}
