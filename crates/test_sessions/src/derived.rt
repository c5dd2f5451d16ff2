//! What an office keeps beside the rows of its tables, by SQL of the test's own: contents, each once, the due
//! day of each deposit and how many live holds cover it. All of it is computed anew from the rows.

use crate::offices::AnyOffice;
use office_core::{Day, Years, due};
use office_engine::Office;
use sha2::{Digest, Sha256};
use sqlite::types::ValueRef;
use sqlite::{Alter, Connection, Row};
use std::alloc::Global;
use test_plain::Stock;

/// Each deposit, destroyed ones too, with the years of its class.
const DEPOSITS: &str =
    "SELECT number, collection, closed, years, due, holds, deposit.class FROM deposit JOIN class ON class.name = deposit.class ORDER BY number";

/// What each live hold is on.
const LIVE_HOLDS: &str =
    "SELECT deposit, collection, class FROM hold_4 WHERE released IS NULL ORDER BY number";

const CONTENTS: &str = "SELECT id, mark, size, bytes FROM content ORDER BY id";

/// The contents that the files of kept deposits have, file by file.
const FILES: &str =
    "SELECT content FROM file JOIN deposit ON deposit.number = file.deposit WHERE gone IS NULL ORDER BY content";

/// What the columns of a deposit have to be.
#[derive(Clone, Copy)]
struct DerivedColumns {
    due: Option<i64>,
    holds: i64,
}

/// How long a class keeps its deposits.
fn years_of(count: i64) -> Option<Years> {
    if count == -1 {
        return Some(Years::permanent());
    }
    Years::new(u8::try_from(count).ok()?)
}

/// The day from which a deposit may be destroyed, or none where it is kept permanently.
fn due_number(closed: i64, years: i64) -> Option<Option<i64>> {
    let closed = Day::new(i32::try_from(closed).ok()?)?;
    Some(due(closed, years_of(years)?).number())
}

/// Whether the hold of the row has that name in a column.
fn names(hold: &Row, at: usize, name: &str) -> Option<bool> {
    let held: Option<String> = hold.get(at).ok()?;
    match held {
        Some(held) => Some(held.as_str() == name),
        None => Some(false),
    }
}

/// Whether the hold of the row is on the deposit, on its collection or on its class.
fn covers(hold: &Row, number: i64, collection: &str, class: &str) -> Option<bool> {
    let deposit: Option<i64> = hold.get(0).ok()?;
    Some(deposit == Some(number) || names(hold, 1, collection)? || names(hold, 2, class)?)
}

/// How many of the live holds cover the deposit.
fn count_holds(holds: &[Row], number: i64, collection: &str, class: &str) -> Option<i64> {
    let mut count = 0i64;
    for hold in holds {
        if covers(hold, number, collection, class)? {
            count = count.saturating_add(1);
        }
    }
    Some(count)
}

/// What the columns of the deposit of the row have to be.
fn computed(row: &Row, holds: &[Row]) -> Option<DerivedColumns> {
    let number: i64 = row.get(0).ok()?;
    let collection: String = row.get(1).ok()?;
    let closed: i64 = row.get(2).ok()?;
    let years: i64 = row.get(3).ok()?;
    let class: String = row.get(6).ok()?;
    Some(DerivedColumns {
        due: due_number(closed, years)?,
        holds: count_holds(holds, number, collection.as_str(), class.as_str())?,
    })
}

/// Which column of the deposit is another than what is computed, or no text.
fn other_column(row: &Row, holds: &[Row]) -> Option<&'static str> {
    let wanted = computed(row, holds)?;
    let due: Option<i64> = row.get(4).ok()?;
    let count: i64 = row.get(5).ok()?;
    if due != wanted.due {
        return Some("another due day");
    }
    if count != wanted.holds {
        return Some("another count of holds");
    }
    Some("")
}

/// The bytes of a column.
fn bytes_in(row: &Row, at: usize) -> Option<&[u8]> {
    match row.get_ref(at).ok()? {
        ValueRef::Blob(bytes) => Some(bytes),
        _ => None,
    }
}

/// Whether one of the rows has these bytes as its content.
fn has_bytes(contents: &[Row], bytes: &[u8]) -> Option<bool> {
    for row in contents {
        if bytes_in(row, 3)? == bytes {
            return Some(true);
        }
    }
    Some(false)
}

/// Whether one of the files has the content of that number.
fn has_file(files: &[Row], id: i64) -> Option<bool> {
    for row in files {
        let content: i64 = row.get(0).ok()?;
        if content == id {
            return Some(true);
        }
    }
    Some(false)
}

/// What is wrong with the content of the row, of which those before are others, or no text.
fn content_flaw(row: &Row, before: &[Row], files: &[Row]) -> Option<&'static str> {
    let id: i64 = row.get(0).ok()?;
    let mark = bytes_in(row, 1)?;
    let size: i64 = row.get(2).ok()?;
    let bytes = bytes_in(row, 3)?;
    let digest = Sha256::digest(bytes);
    if mark != digest.as_slice() {
        return Some("a mark that isn't its digest");
    }
    if usize::try_from(size).ok() != Some(bytes.len()) {
        return Some("another size");
    }
    if has_bytes(before, bytes)? {
        return Some("the bytes of another");
    }
    if !has_file(files, id)? {
        return Some("no file");
    }
    Some("")
}

/// The first of the deposits that has another column, in words, or no text.
fn other_deposit(alloc: Global, deposits: &[Row], holds: &[Row]) -> Option<String> {
    for row in deposits {
        let told = other_column(row, holds)?;
        if !told.is_empty() {
            let number: i64 = row.get(0).ok()?;
            return format!(in alloc; "deposit {number} has {told}").ok();
        }
    }
    Some(String::new(alloc))
}

/// The first of the contents that is not as the files give it, in words, or no text.
fn other_content(alloc: Global, contents: &[Row], files: &[Row]) -> Option<String> {
    for (at, row) in contents.iter().enumerate() {
        let told = content_flaw(row, contents.get(..at)?, files)?;
        if !told.is_empty() {
            let id: i64 = row.get(0).ok()?;
            return format!(in alloc; "content {id} has {told}").ok();
        }
    }
    Some(String::new(alloc))
}

/// What is stored of the deposits otherwise than their rows and those of the holds give, or no text.
fn deposits_derived_otherwise<S: Alter>(alloc: Global, conn: &mut Connection<S>) -> Option<String> {
    let deposits = conn.query_all(DEPOSITS, &[]).ok()?;
    let holds = conn.query_all(LIVE_HOLDS, &[]).ok()?;
    other_deposit(alloc, &deposits, &holds)
}

/// What is stored of the contents otherwise than the files of the kept deposits give, or no text.
fn contents_derived_otherwise<S: Alter>(alloc: Global, conn: &mut Connection<S>) -> Option<String> {
    let contents = conn.query_all(CONTENTS, &[]).ok()?;
    let files = conn.query_all(FILES, &[]).ok()?;
    other_content(alloc, &contents, &files)
}

/// What the tables keep beside the rows otherwise than the rows give, or no text: each deposit has the due
/// day of its closing day and its class, and the number of the live holds on it, on its collection and on its
/// class; each content occurs once, under its SHA-256 and with its size, and a kept deposit has it. `None` where the
/// store fails.
pub fn derived_otherwise<S: Alter>(alloc: Global, conn: &mut Connection<S>) -> Option<String> {
    let told = deposits_derived_otherwise(alloc, conn)?;
    if told.is_empty() {
        return contents_derived_otherwise(alloc, conn);
    }
    Some(told)
}

/// The stock, by the bytes of the contents.
fn shown_stock<S: Alter>(conn: &mut Connection<S>) -> Option<Stock> {
    let rows = conn.query_all(CONTENTS, &[]).ok()?;
    let mut bytes = 0usize;
    for row in rows.iter() {
        bytes = bytes.saturating_add(bytes_in(row, 3)?.len());
    }
    Some(Stock {
        contents: rows.len(),
        bytes,
    })
}

/// As `derived_otherwise`, and whether the stock that the office told is that of its contents.
fn told_otherwise<S: Alter>(
    alloc: Global,
    conn: &mut Connection<S>,
    stock: Stock,
) -> Option<String> {
    let told = derived_otherwise(alloc, conn)?;
    if told.is_empty() && shown_stock(conn)? != stock {
        return String::from_str(alloc, "another stock").ok();
    }
    Some(told)
}

/// The stock that an office tells.
fn stock_of<O: AnyOffice>(alloc: Global, office: &mut O) -> Option<Stock> {
    office.stock(alloc).ok()
}

/// Takes the connection out of the office, and hands it back: with what its tables keep otherwise than their
/// rows give, or the office tells otherwise, or no text.
pub fn look<S: Alter + Drop>(alloc: Global, office: Office<S>) -> (Option<String>, Connection<S>) {
    let mut office = office;
    let stock = stock_of(alloc, &mut office);
    let mut conn = office.into_connection();
    let told = match stock {
        Some(stock) => told_otherwise(alloc, &mut conn, stock),
        None => None,
    };
    (told, conn)
}
