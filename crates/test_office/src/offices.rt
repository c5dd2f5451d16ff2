//! Rows, put to an office. What is answered otherwise than a row says is told as a text, which is empty
//! where nothing is; `None` is a row that asks nothing, or that memory ran out.

use crate::bodies::put_for_bodies;
use crate::policies::policy_named;
use crate::rows::rows;
use office_core::{Answer, Day, Limits, Sequence};
use office_engine::Office;
use office_tables::TableFault;
use sqlite::{Alter, Connection};
use std::alloc::Global;
use test_sessions::{
    AnyOffice, Row, TestRequest, answer_in_words, differs, differs_in_run, install, look, open,
    words,
};

/// How rows are put to an office.
#[derive(Clone, Copy)]
pub(crate) enum Way {
    /// One after the other.
    Steps,
    /// All in one run.
    OneRun,
}

/// Room for this number of deposits and as many holds.
pub(crate) fn limits(most: &str) -> Option<Limits> {
    let most = most.parse().ok()?;
    Limits::new(most, most)
}

/// Gives the office the policy, the classes and the collections of `test_sessions`.
pub(crate) fn equip<O: AnyOffice>(alloc: Global, office: &mut O) -> Option<String> {
    let differs = open(alloc, office).ok()?;
    Some(differs.unwrap_or(String::new(alloc)))
}

/// Installs the policy of that name, in the place of the one before.
pub(crate) fn install_named<O: AnyOffice>(
    alloc: Global,
    office: &mut O,
    name: &str,
) -> Option<String> {
    install(alloc, office, policy_named(name)?).ok()?;
    Some(String::new(alloc))
}

/// Puts the rows to the office.
pub(crate) fn put<O: AnyOffice>(
    alloc: Global,
    office: &mut O,
    way: Way,
    text: &'static str,
) -> Option<String> {
    let rows = rows(alloc, text)?;
    let differs = match way {
        Way::Steps => differs(alloc, office, &rows).ok()?,
        Way::OneRun => differs_in_run(alloc, office, &rows).ok()?,
    };
    Some(differs.unwrap_or(String::new(alloc)))
}

/// What the call for the due list answers, in the words of the request for it, or its fault.
fn due_words<S: Alter>(
    alloc: Global,
    office: &mut Office<S>,
    day: &str,
    caller: &str,
) -> Option<String> {
    let day = Day::read(day)?;
    match office.due_list(alloc, day, caller) {
        Ok(numbers) => {
            let deposits = Sequence::of(numbers);
            words(alloc, &Answer::DueList { day, deposits }).ok()
        }
        Err(fault) => code(alloc, fault),
    }
}

/// Calls for the due list, where the row asks for it. `Q4` means `Store`.
fn call<S: Alter>(alloc: Global, office: &mut Office<S>, row: &Row) -> Option<String> {
    let (day, caller, asked, told) = *row;
    let TestRequest::DueList = asked else {
        return Some(String::new(alloc));
    };
    let found = due_words(alloc, office, day, caller)?;
    if found.as_str() == told || (told == "Store" && found.as_str() == "Q4") {
        return Some(String::new(alloc));
    }
    Some(found)
}

/// Calls for the due list, where the last row asks for it.
fn call_last<S: Alter>(
    alloc: Global,
    office: &mut Office<S>,
    text: &'static str,
) -> Option<String> {
    let rows = rows(alloc, text)?;
    match rows.last() {
        Some(row) => call(alloc, office, row),
        None => Some(String::new(alloc)),
    }
}

/// Puts the rows to the office, and then calls for the due list, where the last row asks for it.
fn put_and_call<S: Alter>(
    alloc: Global,
    office: &mut Office<S>,
    way: Way,
    text: &'static str,
) -> Option<String> {
    let differs = put(alloc, office, way, text)?;
    if differs.is_empty() {
        return call_last(alloc, office, text);
    }
    Some(differs)
}

/// Puts the row to the office, and calls for the due list, where the row asks for it.
fn ask_and_call<S: Alter>(alloc: Global, office: &mut Office<S>, row: &Row) -> Option<String> {
    let (day, caller, asked, told) = *row;
    let answer = answer_in_words(alloc, office, day, caller, asked).ok()?;
    if answer.as_str() == told {
        return call(alloc, office, row);
    }
    Some(answer)
}

/// The code of the fault.
pub(crate) fn code(alloc: Global, fault: TableFault) -> Option<String> {
    format!(in alloc; "{fault}").ok()
}

/// What was answered otherwise, or else what the tables keep otherwise than their rows give, or no text.
fn look_behind<S: Alter + Drop>(
    alloc: Global,
    office: Office<S>,
    differs: Option<String>,
) -> (Option<String>, Connection<S>) {
    match differs {
        Some(text) if text.is_empty() => look(alloc, office),
        differs => (differs, office.into_connection()),
    }
}

/// What is told, after the row.
fn behind(alloc: Global, at: usize, told: Option<String>) -> Option<String> {
    let told = told?;
    if told.is_empty() {
        return Some(told);
    }
    format!(in alloc; "row {at}: {told}").ok()
}

/// Makes an office in the database, and gives it the policy, the classes and the collections. The
/// connection is handed back.
pub(crate) fn create_and_equip<S: Alter + Drop>(
    alloc: Global,
    conn: Connection<S>,
    most: &str,
) -> (Option<String>, Connection<S>) {
    let Some(limits) = limits(most) else {
        return (None, conn);
    };
    if !conn.is_autocommit() {
        return (None, conn);
    }
    match Office::create(conn, limits) {
        Ok(mut office) => {
            let differs = equip(alloc, &mut office);
            look_behind(alloc, office, differs)
        }
        Err((conn, fault)) => (code(alloc, fault), conn),
    }
}

/// Adopts the connection as an office. It is handed back where it isn't taken for one, with the code of the
/// fault.
fn adopt<S: Alter + Drop>(
    alloc: Global,
    conn: Connection<S>,
) -> Result<Office<S>, (Option<String>, Connection<S>)> {
    if !conn.is_autocommit() {
        return Err((None, conn));
    }
    match Office::adopt(conn) {
        Ok(office) => Ok(office),
        Err((conn, fault)) => Err((code(alloc, fault), conn)),
    }
}

/// Adopts the connection as an office, puts the row to it, which calls for the due list, too, where it asks
/// for it, and then looks at the tables. The connection is handed back: with the code of the fault, where it
/// isn't taken for an office.
fn put_row<S: Alter + Drop>(
    alloc: Global,
    conn: Connection<S>,
    at: usize,
    row: &Row,
) -> (Option<String>, Connection<S>) {
    match adopt(alloc, conn) {
        Ok(mut office) => {
            let differs = ask_and_call(alloc, &mut office, row);
            let (told, conn) = look_behind(alloc, office, differs);
            (behind(alloc, at, told), conn)
        }
        Err(told) => told,
    }
}

/// Puts the rows to the office one after the other, and looks at the tables after each.
fn put_each<S: Alter + Drop>(
    alloc: Global,
    conn: Connection<S>,
    text: &'static str,
) -> (Option<String>, Connection<S>) {
    let Some(rows) = rows(alloc, text) else {
        return (None, conn);
    };
    let mut conn = conn;
    for (at, row) in rows.iter().enumerate() {
        let (told, left) = put_row(alloc, conn, at, row);
        conn = left;
        match told {
            Some(text) if text.is_empty() => {}
            told => return (told, conn),
        }
    }
    (Some(String::new(alloc)), conn)
}

/// Puts the rows to the office in one run, and then looks at the tables.
fn put_in_run<S: Alter + Drop>(
    alloc: Global,
    conn: Connection<S>,
    text: &'static str,
) -> (Option<String>, Connection<S>) {
    match adopt(alloc, conn) {
        Ok(mut office) => {
            let differs = put_and_call(alloc, &mut office, Way::OneRun, text);
            look_behind(alloc, office, differs)
        }
        Err(told) => told,
    }
}

/// Adopts the connection as an office and puts the rows to it. After each row, or after the run of all, what
/// the tables keep beside their rows is compared with what the rows give. The connection is handed back.
pub(crate) fn put_and_look<S: Alter + Drop>(
    alloc: Global,
    conn: Connection<S>,
    way: Way,
    text: &'static str,
) -> (Option<String>, Connection<S>) {
    match way {
        Way::Steps => put_each(alloc, conn, text),
        Way::OneRun => put_in_run(alloc, conn, text),
    }
}

/// How much the office keeps, where it isn't this, or no text.
pub(crate) fn other_stock<O: AnyOffice>(
    alloc: Global,
    office: &mut O,
    wanted: &str,
) -> Option<String> {
    let told = match office.stock(alloc) {
        Ok(found) => {
            let contents = found.contents;
            let bytes = found.bytes;
            format!(in alloc; "{contents} contents, {bytes} bytes").ok()?
        }
        Err(fault) => code(alloc, fault)?,
    };
    if told.as_str() == wanted {
        return Some(String::new(alloc));
    }
    Some(told)
}

/// Adopts the connection as an office and looks at its tables. The connection is handed back, with what is found
/// there otherwise than the rows give, or no text.
pub(crate) fn adopt_and_look<S: Alter + Drop>(
    alloc: Global,
    conn: Connection<S>,
) -> (Option<String>, Connection<S>) {
    match adopt(alloc, conn) {
        Ok(office) => look(alloc, office),
        Err(told) => told,
    }
}

/// Makes the tables of an office of an older version those of this one, and looks at them. The connection is handed
/// back: with the code of the fault, where it isn't taken for an office.
pub(crate) fn upgrade_and_look<S: Alter + Drop>(
    alloc: Global,
    conn: Connection<S>,
) -> (Option<String>, Connection<S>) {
    if !conn.is_autocommit() {
        return (None, conn);
    }
    match Office::upgrade(conn) {
        Ok(office) => look(alloc, office),
        Err((conn, fault)) => (code(alloc, fault), conn),
    }
}

/// Adopts the connection as an office, installs the policy of that name, and looks at the tables. The connection
/// is handed back.
pub(crate) fn adopt_and_install<S: Alter + Drop>(
    alloc: Global,
    conn: Connection<S>,
    name: &str,
) -> (Option<String>, Connection<S>) {
    match adopt(alloc, conn) {
        Ok(mut office) => {
            let differs = install_named(alloc, &mut office, name);
            look_behind(alloc, office, differs)
        }
        Err(told) => told,
    }
}

/// Adopts the connection as an office and compares the bodies of its answers. The connection is handed back.
pub(crate) fn adopt_and_compare<S: Alter + Drop>(
    alloc: Global,
    conn: Connection<S>,
    text: &'static str,
) -> (Option<String>, Connection<S>) {
    match adopt(alloc, conn) {
        Ok(mut office) => {
            let differs = put_for_bodies(alloc, &mut office, text);
            (differs, office.into_connection())
        }
        Err(told) => told,
    }
}

/// Adopts the connection as an office and asks for its stock. The connection is handed back.
pub(crate) fn ask_stock<S: Alter + Drop>(
    alloc: Global,
    conn: Connection<S>,
    wanted: &str,
) -> (Option<String>, Connection<S>) {
    match adopt(alloc, conn) {
        Ok(mut office) => {
            let differs = other_stock(alloc, &mut office, wanted);
            (differs, office.into_connection())
        }
        Err(told) => told,
    }
}

/// Adopts the connection as an office and puts the rows to it. The connection is handed back: with the
/// code of the fault, where it isn't taken for an office.
pub(crate) fn adopt_and_put<S: Alter + Drop>(
    alloc: Global,
    conn: Connection<S>,
    way: Way,
    text: &'static str,
) -> (Option<String>, Connection<S>) {
    match adopt(alloc, conn) {
        Ok(mut office) => {
            let differs = put_and_call(alloc, &mut office, way, text);
            (differs, office.into_connection())
        }
        Err(told) => told,
    }
}
