//! What is done between two openings of a database.

use crate::altering::{alter_for_good, case, make};
use crate::offices::{
    Way, adopt_and_compare, adopt_and_install, adopt_and_look, adopt_and_put, ask_stock,
    create_and_equip, put_and_look, upgrade_and_look,
};
use crate::tables::steps::steps;
use sqlite::{Alter, Connection};
use std::alloc::Global;
use std::test::Fail;

/// A part of a session: its kind, and a text.
///
/// | Kind | Its text |
/// |---|---|
/// | `office` | how many deposits, and holds, the office may have that is made, and given the policy, the classes and the collections of `test_sessions` |
/// | `made` | SQL that makes an office of an older version in an empty database |
/// | `upgraded` | none, where the tables are made those of this version, and looked at; else the code of the fault |
/// | `policy` | the name of a policy, which is installed in the place of the one before (`policies.rt`) |
/// | `asks` | rows, which are put to the office; after each what is stored beside the rows of the tables is compared with what the rows give |
/// | `asks altered` | the same without that: rows of the tables are altered |
/// | `bodies` | rows that are put to the office one after the other; their answers are compared as bodies |
/// | `bodies altered` | the same of an office over its tables: rows of these are altered |
/// | `stock` | how much the office keeps |
/// | `found` | what is stored beside the rows otherwise than they give, where rows of the tables are altered |
/// | `steps` | steps with the tables |
/// | `alters` | SQL that alters rows of the office |
/// | `refused` | the code of the fault where the database is not taken for an office |
/// | another | SQL that alters rows, SQL that takes it back, and the rows that are asked in between, or none; the kind is what is told of them: the code of a fault, or no text |
pub(crate) type Part = (&'static str, &'static str);

/// No text where the texts are the same, else the first.
fn but_for(alloc: Global, text: Option<String>, wanted: &str) -> Option<String> {
    let text = text?;
    if text.as_str() == wanted {
        return Some(String::new(alloc));
    }
    Some(text)
}

/// Takes the part over the connection, which is handed back, with what is answered otherwise, or no
/// text.
pub(crate) fn take_part<S: Alter + Drop>(
    alloc: Global,
    conn: Connection<S>,
    way: Way,
    part: Part,
) -> (Option<String>, Connection<S>) {
    let (kind, text) = part;
    match kind {
        "office" => create_and_equip(alloc, conn, text),
        "made" => {
            let mut conn = conn;
            (make(alloc, &mut conn, text), conn)
        }
        "upgraded" => {
            let (told, conn) = upgrade_and_look(alloc, conn);
            (but_for(alloc, told, text), conn)
        }
        "policy" => adopt_and_install(alloc, conn, text),
        "asks" => put_and_look(alloc, conn, way, text),
        "asks altered" => adopt_and_put(alloc, conn, way, text),
        "bodies" | "bodies altered" => adopt_and_compare(alloc, conn, text),
        "stock" => ask_stock(alloc, conn, text),
        "found" => {
            let (told, conn) = adopt_and_look(alloc, conn);
            (but_for(alloc, told, text), conn)
        }
        "steps" => {
            let mut conn = conn;
            (steps(alloc, &mut conn, text), conn)
        }
        "alters" => {
            let mut conn = conn;
            (alter_for_good(alloc, &mut conn, text), conn)
        }
        "refused" => {
            let (told, conn) = adopt_and_put(alloc, conn, way, "");
            (but_for(alloc, told, text), conn)
        }
        _ => {
            let (told, conn) = case(alloc, conn, text);
            (but_for(alloc, told, kind), conn)
        }
    }
}

/// Fails where something was answered otherwise.
pub(crate) fn agree(differs: Option<String>) -> Result<(), Fail> {
    match differs {
        None => Err(Fail::new("no answer")),
        Some(text) if text.is_empty() => Ok(()),
        Some(text) => Err(Fail::new(text)),
    }
}
