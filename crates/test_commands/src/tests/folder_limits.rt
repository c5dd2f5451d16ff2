//! Folders and forms at their limits.

use crate::tests::folders::{
    finish, lay, make_folder, make_folder_with, pack_here, packs_as, unpacks_as,
};
use std::fs::File;
use std::test::*;
use std::{fs, io};

/// Makes a file of this number of bytes, all of them zero, of which no disk keeps any.
fn make_sparse(rt: &HostRuntime, path: &str, size: u64) -> io::Result<()> {
    File::create(rt, path)?.set_len(size)
}

/// Writes a line feed after the bytes of the file.
fn add_a_line_feed(rt: &HostRuntime, path: &str) -> io::Result<()> {
    let mut file = fs::OpenOptions::new().append(true).open(rt, path)?;
    io::Write::write_all(&mut file, b"\n")
}

/// How long a file `b` is, what is said of a folder with it and an empty file `a`, and why.
static SIZES: [(u64, &str, &str); 5] = [
    (16_777_174, "packed 2 files 16777216 bytes\n", ""),
    (
        16_777_175,
        "unpackable SIZE\n",
        "the form of the folder is longer than 16,777,216 bytes, the most that is written (SIZE)\n",
    ),
    (
        16_777_216,
        "unpackable SIZE\n",
        "the form of the folder is longer than 16,777,216 bytes, the most that is written (SIZE)\n",
    ),
    (
        16_777_217,
        "unpackable S2 1\n",
        "b has more than 16,777,216 bytes, the most that a file of a bag may have (S2)\n",
    ),
    (
        1_099_511_627_776,
        "unpackable S2 1\n",
        "b has more than 16,777,216 bytes, the most that a file of a bag may have (S2)\n",
    ),
];

/// Packs the folder with a file `b` of this number of bytes.
fn pack_sized(rt: &HostRuntime, size: u64, line: &str, reason: &str) -> Result<(), Fail> {
    make_sparse(rt, "sizes/large/b", size)?;
    packs_as(rt, "sizes/large", "sizes/large.bagset", line, reason)
}

/// Packs a file too long beside others. Its position is that in the order of paths, and it comes before
/// names that clash.
fn pack_beside_others(rt: &HostRuntime) -> Result<(), Fail> {
    fs::write(rt, "sizes/large/a0", b"")?;
    fs::write(rt, "sizes/large/data", b"")?;
    packs_as(
        rt,
        "sizes/large",
        "sizes/large.bagset",
        "unpackable S2 2\n",
        "",
    )
}

#[test]
fn packs_up_to_the_limit(rt: HostRuntime) -> Result<(), Fail> {
    make_folder_with(&rt, "sizes", "sizes/large", "a=")?;
    for (size, line, reason) in &SIZES {
        pack_sized(&rt, *size, line, reason)?;
    }
    pack_beside_others(&rt)?;
    finish(&rt, "sizes")
}

/// A form as long as one may be.
const LONGEST: &str = "whole-forms/whole.bagset";

/// Whether the form of a folder with a file of this number of bytes is as long as one may be.
fn packs_longest(rt: &HostRuntime) -> Result<bool, Fail> {
    make_folder_with(rt, "whole-forms", "whole-forms/whole", "")?;
    make_sparse(rt, "whole-forms/whole/b", 16_777_185)?;
    Ok(pack_here(rt, "whole-forms/whole", LONGEST)?.bytes == 16_777_216)
}

/// Whether nothing is made of that form with one byte more, whatever it is.
fn refuses_one_more(rt: &HostRuntime) -> Result<bool, Fail> {
    add_a_line_feed(rt, LONGEST)?;
    unpacks_as(rt, LONGEST, "whole-forms/too-long", "unreadable SIZE\n", "")?;
    Ok(!fs::exists(rt, "whole-forms/too-long")?)
}

#[test]
fn unpacks_up_to_the_limit(rt: HostRuntime) -> Result<(), Fail> {
    assert!(rt; packs_longest(&rt)?);
    unpacks_as(
        &rt,
        LONGEST,
        "whole-forms/whole-again",
        "unpacked 1 files\n",
        "",
    )?;
    assert!(rt; refuses_one_more(&rt)?);
    finish(&rt, "whole-forms")
}

/// Makes this number of empty files, with numbers for names.
fn make_files(rt: &HostRuntime, count: u32) -> Result<(), Fail> {
    for number in 0..count {
        let path = format!(in rt.alloc(); "many-files/many/{number}")?;
        fs::write(rt, path, b"")?;
    }
    Ok(())
}

/// Packs the files: how many there are.
fn pack_files(rt: &HostRuntime) -> Result<usize, Fail> {
    Ok(pack_here(rt, "many-files/many", "many-files/many.bagset")?.files)
}

/// Packs the files with one more of this number of bytes, whose position is the 2,001st in the order of paths.
fn pack_one_more(rt: &HostRuntime, size: u64, line: &str, reason: &str) -> Result<(), Fail> {
    make_sparse(rt, "many-files/many/a", size)?;
    packs_as(
        rt,
        "many-files/many",
        "many-files/many.bagset",
        line,
        reason,
    )
}

#[test]
fn packs_no_more_than_2000_files(rt: HostRuntime) -> Result<(), Fail> {
    make_folder_with(&rt, "many-files", "many-files/many", "")?;
    make_files(&rt, 2000)?;
    assert!(rt; pack_files(&rt)? == 2000);
    pack_one_more(&rt, 0, "unpackable S6\n", "")?;
    pack_one_more(&rt, 16_777_217, "unpackable S2 2000\n", "a has more than ")?;
    make_sparse(&rt, "many-files/many/b", 16_777_217)?;
    pack_one_more(&rt, 0, "unpackable S6\n", "")?;
    finish(&rt, "many-files")
}

/// Makes an empty file with a path of 1,024 bytes, and this after them: four names of 204 bytes and
/// slashes are 820 bytes, and with a name of 204 more 1,024.
fn lay_deep(rt: &HostRuntime, end: &str) -> Result<(), Fail> {
    let name = "d".repeat(rt.alloc(), 204)?;
    let files = format!(in rt.alloc(); "{name}/{name}/{name}/{name}/{name}{end}=")?;
    lay(rt, "long-paths/deep", files.as_str())
}

/// How many files are packed, where a form may have each path.
fn pack_deep(rt: &HostRuntime) -> Result<usize, Fail> {
    lay_deep(rt, "")?;
    Ok(pack_here(rt, "long-paths/deep", "long-paths/deep.bagset")?.files)
}

/// Packs a path with one byte more.
fn refuse_deeper(rt: &HostRuntime) -> Result<(), Fail> {
    lay_deep(rt, "d")?;
    packs_as(
        rt,
        "long-paths/deep",
        "long-paths/deep.bagset",
        "unpackable S5 1\n",
        "d is no good path: ",
    )
}

#[test]
fn packs_no_path_of_more_than_1024_bytes(rt: HostRuntime) -> Result<(), Fail> {
    make_folder(&rt, "long-paths")?;
    assert!(rt; pack_deep(&rt)? == 1);
    refuse_deeper(&rt)?;
    finish(&rt, "long-paths")
}
