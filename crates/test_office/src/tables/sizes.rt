//! The smallest and the largest contents, odd paths, and many files.

use crate::parts::Part;
use office_tables::{FileRow, TableFault, file_of, files_of, put_file};
use sqlite::{Alter, Connection};
use std::alloc::{AllocError, Global};

/// Files are put, and found when the database is opened again.
pub(crate) static SIZES: [&[Part]; 4] = [
    // A content of no byte and one of 16,777,216 bytes.
    &[
        ("steps", "create"),
        ("steps", "put|sizes > 2"),
        ("steps", "find|sizes > 2"),
    ],
    // Paths with every byte that a path may have.
    &[
        ("steps", "create"),
        ("steps", "put|odd > 240"),
        ("steps", "find|odd > 240"),
    ],
    // Paths that differ little.
    &[
        ("steps", "create"),
        ("steps", "put|near > 18"),
        ("steps", "find|near > 18"),
    ],
    // Many files.
    &[
        ("steps", "create"),
        ("steps", "put|many > 2000"),
        ("steps", "find|many > 2000"),
        (
            "steps",
            "do|file|2|data/0000|\n\
             do|drop files|1\n\
             read|files|1 > []\n\
             read|content|1|data/0000 > None\n\
             read|files|2 > [FileRow { deposit: 2, path: \"data/0000\", content: [] }]",
        ),
    ],
];

static SHORT_PATHS: [&str; 16] = [
    "a",
    "A",
    "a ",
    " a",
    "a\t",
    "a\n",
    "a\r\n",
    "data/%25",
    "data/%",
    "data/'",
    "data/\"",
    "data/;--",
    "data/\\",
    "data/\u{feff}",
    "data/e\u{301}",
    "data/\u{e9}",
];

/// How many paths are tried for the files of this name.
fn count(name: &str) -> u32 {
    match name {
        "sizes" => 2,
        "odd" => 241,
        "near" => 18,
        "many" => 2000,
        _ => 0,
    }
}

/// Characters with every byte that a path may have: those of one byte, each that goes on with a longer
/// character, and each that begins one. They are in the order of their bytes.
fn odd(at: u32) -> Option<char> {
    let code = if at < 0xbf {
        at + 1
    } else if at < 0xdc {
        (at - 0xbc) * 0x40
    } else if at < 0xec {
        ((at - 0xdc) * 0x1000 + 1).max(0x801)
    } else if at < 0xf1 {
        ((at - 0xec) * 0x4_0000 + 1).max(0x1_0001)
    } else {
        return None;
    };
    match char::from_u32(code) {
        Some('/') => None,
        character => character,
    }
}

/// A path of the files of this name, if there is one. The last of those that are near to one another
/// have 1,024 bytes, and differ in the last.
fn path(alloc: Global, name: &str, at: u32) -> Result<Option<String>, AllocError> {
    match name {
        "odd" => match odd(at) {
            Some(character) => Ok(Some(format!(in alloc; "data/{character}")?)),
            None => Ok(None),
        },
        "near" => match SHORT_PATHS.get(at as usize) {
            Some(path) => Ok(Some(String::from_str(alloc, path)?)),
            None => Ok(Some(format!(in alloc; "data/{at:01019}")?)),
        },
        "sizes" => Ok(Some(format!(in alloc; "{at}")?)),
        _ => Ok(Some(format!(in alloc; "data/{at:04}")?)),
    }
}

/// The paths of the files of this name.
fn paths(alloc: Global, name: &str) -> Result<Vec<String>, AllocError> {
    let mut paths = Vec::new(alloc);
    for at in 0..count(name) {
        if let Some(path) = path(alloc, name, at)? {
            paths.push(path)?;
        }
    }
    Ok(paths)
}

/// The content of the file at this path: the path itself, but for two of them.
fn content(alloc: Global, path: &str) -> Result<Vec<u8>, AllocError> {
    match path {
        "0" => Ok(Vec::new(alloc)),
        "1" => {
            let mut content = vec![in alloc; 0; 16_777_215]?;
            content.push(255)?;
            Ok(content)
        }
        _ => path.as_bytes().to_vec(alloc),
    }
}

/// Puts a file of deposit 1.
fn put_one<S: Alter>(
    alloc: Global,
    conn: &mut Connection<S>,
    path: &str,
) -> Result<(), TableFault> {
    if !conn.is_autocommit() {
        return Err(TableFault::Memory);
    }
    let content = content(alloc, path)?;
    let mut tx = conn.transaction();
    put_file(&mut tx, 1, path, &content)?;
    Ok(tx.commit()?)
}

/// Puts the files of this name, from the last path to the first, each in a transaction: how many they
/// are.
pub(crate) fn put<S: Alter>(
    alloc: Global,
    conn: &mut Connection<S>,
    name: &str,
) -> Result<usize, TableFault> {
    let mut paths = paths(alloc, name)?;
    paths.reverse();
    for path in paths.iter() {
        put_one(alloc, conn, path)?;
    }
    Ok(paths.len())
}

/// Whether the file of deposit 1 at this path has its content.
fn finds<S: Alter>(
    alloc: Global,
    conn: &mut Connection<S>,
    path: &str,
) -> Result<bool, TableFault> {
    if !conn.is_autocommit() {
        return Ok(false);
    }
    let mut tx = conn.transaction();
    let found = file_of(&mut tx, 1, path)?;
    let wanted = content(alloc, path)?;
    match found {
        Some(found) => Ok(found.as_slice() == wanted.as_slice()),
        None => Ok(false),
    }
}

/// Whether the row is the file at this path, with its content.
fn is_file(alloc: Global, row: &FileRow, path: &str) -> Result<bool, AllocError> {
    let wanted = content(alloc, path)?;
    Ok(row.path.as_str() == path && row.content.as_slice() == wanted.as_slice())
}

/// Whether the rows are the files at just these paths, in this order, with their contents.
fn are_files(alloc: Global, rows: &[FileRow], paths: &[String]) -> Result<bool, AllocError> {
    for (row, path) in rows.iter().zip(paths.iter()) {
        if !is_file(alloc, row, path.as_str())? {
            return Ok(false);
        }
    }
    Ok(rows.len() == paths.len())
}

/// Whether the files of deposit 1 are listed with just these paths, in this order, and their contents.
fn lists<S: Alter>(
    alloc: Global,
    conn: &mut Connection<S>,
    paths: &[String],
) -> Result<bool, TableFault> {
    if !conn.is_autocommit() {
        return Ok(false);
    }
    let mut tx = conn.transaction();
    let found = files_of(alloc, &mut tx, 1)?;
    Ok(are_files(alloc, found.as_slice(), paths)?)
}

/// Finds the files of this name, each and as they are listed in the order of their paths: how many they
/// are, or none where one isn't found.
pub(crate) fn find<S: Alter>(
    alloc: Global,
    conn: &mut Connection<S>,
    name: &str,
) -> Result<usize, TableFault> {
    let mut paths = paths(alloc, name)?;
    paths.sort()?;
    if !lists(alloc, conn, &paths)? {
        return Ok(0);
    }
    for path in paths.iter() {
        if !finds(alloc, conn, path)? {
            return Ok(0);
        }
    }
    Ok(paths.len())
}
