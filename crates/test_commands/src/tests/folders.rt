//! What comes of packing and unpacking small folders and forms, each in a folder of its test's own.

use crate::tests::rows::{holds, rows_of};
use bag_folders::{
    PackFault, Packed, Said, UnpackFault, Unpacked, pack, pack_said, unpack, unpack_said,
};
use std::alloc::AllocError;
use std::os::unix::fs::symlink;
use std::test::*;
use std::{fs, io};
use test_bags::{bytes_of, text_of};

/// Packs over the files of the host.
pub(crate) fn pack_here(rt: &HostRuntime, folder: &str, file: &str) -> Result<Packed, PackFault> {
    pack(rt, folder, file)
}

/// Unpacks over the files of the host.
pub(crate) fn unpack_here(
    rt: &HostRuntime,
    file: &str,
    folder: &str,
) -> Result<Unpacked, UnpackFault> {
    unpack(rt, file, folder)
}

/// Why the work wasn't done, or nothing.
fn reason_of(said: &Said) -> &str {
    match &said.reason {
        Some(reason) => reason.as_str(),
        None => "",
    }
}

/// Whether this is told: all of the reason, or what has it in it, where it is no whole line.
fn is_told(told: &str, reason: &str) -> bool {
    told == reason || (!reason.ends_with('\n') && told.contains(reason))
}

/// Whether work with this line was done.
fn is_done(line: &str) -> bool {
    line.starts_with("packed ") || line.starts_with("unpacked ")
}

/// Whether this line is said, and this reason: all of it, or what has it in it, where that is no whole
/// line.
fn is_line_and_reason(said: &Said, line: &str, reason: &str) -> bool {
    said.text.as_str() == line && is_told(reason_of(said), reason) && said.is_done == is_done(line)
}

/// Fails where another line is said, or another reason.
fn check_said(said: Said, line: &str, reason: &str) -> Result<(), Fail> {
    if is_line_and_reason(&said, line, reason) {
        return Ok(());
    }
    Err(Fail::new(said.text))
}

/// Packs the folder, and fails where something else is said.
pub(crate) fn packs_as(
    rt: &HostRuntime,
    folder: &str,
    file: &str,
    line: &str,
    reason: &str,
) -> Result<(), Fail> {
    check_said(
        pack_said(rt.alloc(), pack_here(rt, folder, file))?,
        line,
        reason,
    )
}

/// Unpacks the form, and fails where something else is said.
pub(crate) fn unpacks_as(
    rt: &HostRuntime,
    file: &str,
    folder: &str,
    line: &str,
    reason: &str,
) -> Result<(), Fail> {
    check_said(
        unpack_said(rt.alloc(), unpack_here(rt, file, folder))?,
        line,
        reason,
    )
}

/// Fails where the file has other bytes.
pub(crate) fn compare(rt: &HostRuntime, file: &str, bytes: &[u8]) -> Result<(), Fail> {
    if fs::read(rt, file)?.as_slice() == bytes {
        return Ok(());
    }
    Err(Fail::new(file))
}

/// Makes the folder of a test, anew where an earlier run left one.
pub(crate) fn make_folder(rt: &HostRuntime, folder: &str) -> io::Result<()> {
    if fs::exists(rt, folder)? {
        fs::remove_dir_all(rt, folder)?;
    }
    fs::create_dir(rt, folder)
}

/// Makes a file with the folders above it. Its path and its content are texts with marks.
fn lay_file(rt: &HostRuntime, folder: &str, path: &str, content: &str) -> Result<(), Fail> {
    let path = text_of(rt.alloc(), path)?;
    let whole = format!(in rt.alloc(); "{folder}/{path}")?;
    if let Some((above, _)) = whole.as_str().rsplit_once('/') {
        fs::create_dir_all(rt, above)?;
    }
    let bytes = bytes_of(rt.alloc(), content)?;
    fs::write(rt, whole.as_str(), bytes.as_slice())?;
    Ok(())
}

/// Makes a folder with files: `path=content`, with a comma and a blank between them.
pub(crate) fn lay(rt: &HostRuntime, folder: &str, files: &str) -> Result<(), Fail> {
    fs::create_dir_all(rt, folder)?;
    for file in files.split(", ") {
        if let Some((path, content)) = file.split_once('=') {
            lay_file(rt, folder, path, content)?;
        }
    }
    Ok(())
}

/// Makes the folder of a test anew, and in it a folder with these files.
pub(crate) fn make_folder_with(
    rt: &HostRuntime,
    test: &str,
    folder: &str,
    files: &str,
) -> Result<(), Fail> {
    make_folder(rt, test)?;
    lay(rt, folder, files)
}

/// Removes a folder, with which a test ends.
pub(crate) fn finish(rt: &HostRuntime, folder: &str) -> Result<(), Fail> {
    fs::remove_dir_all(rt, folder)?;
    Ok(())
}

/// The files of bag A.
pub static BAG_FILES: &str =
    r"manifest-sha256.txt={abc}  data/a\n, bagit.txt=BagIt-Version: 1.0\nTag-File-Character-Encoding: UTF-8\n, data/a=abc";

/// Whether the file has the bytes of bag A's form.
pub(crate) fn is_bag(rt: &HostRuntime, file: &str) -> Result<bool, Fail> {
    let form = bytes_of(rt.alloc(), r"BAGSET 1\n{bag}")?;
    Ok(fs::read(rt, file)?.as_slice() == form.as_slice())
}

/// Where the form of bag A is written, the folder that is made of it, and that folder's form.
const FORM: &str = "bag-and-back/bag-a.bagset";

const COPY: &str = "bag-and-back/copy";

const AGAIN: &str = "bag-and-back/copy.bagset";

/// Whether the folder is packed to the form of bag A.
fn packs_bag(rt: &HostRuntime, folder: &str, file: &str) -> Result<bool, Fail> {
    packs_as(rt, folder, file, "packed 3 files 210 bytes\n", "")?;
    is_bag(rt, file)
}

/// Whether what is there isn't touched as a form is unpacked.
fn keeps_what_stands(rt: &HostRuntime) -> Result<bool, Fail> {
    unpacks_as(rt, FORM, COPY, "exists\n", "")?;
    unpacks_as(rt, FORM, AGAIN, "exists\n", "")?;
    is_bag(rt, AGAIN)
}

/// Whether the calls tell how much they packed and unpacked.
fn tells_how_much(rt: &HostRuntime) -> Result<bool, Fail> {
    let packed = pack_here(rt, COPY, AGAIN)?;
    let unpacked = unpack_here(rt, AGAIN, "bag-and-back/other")?;
    Ok(packed.bytes == 210 && unpacked.files == 3)
}

#[test]
fn packs_and_unpacks_a_bag(rt: HostRuntime) -> Result<(), Fail> {
    make_folder_with(&rt, "bag-and-back", "bag-and-back/bag-a", BAG_FILES)?;
    assert!(rt; packs_bag(&rt, "bag-and-back/bag-a", FORM)?);
    unpacks_as(&rt, FORM, COPY, "unpacked 3 files\n", "")?;
    assert!(rt; packs_bag(&rt, COPY, AGAIN)?);
    assert!(rt; keeps_what_stands(&rt)?);
    assert!(rt; tells_how_much(&rt)?);
    finish(&rt, "bag-and-back")
}

/// A folder's files, its form and the line that is printed, with marks.
static FOLDERS: &str = r"
 => BAGSET 1\nEND\n => packed 0 files 13 bytes\n
# Whole paths are in order, which a folder's name alone isn't.
a/b=2, a0=3, a!=1, a/b!/c= => BAGSET 1\nFILE 2 1\na!1\nFILE 3 1\na/b2\nFILE 6 0\na/b!/c\nFILE 2 1\na03\nEND\n => packed 4 files 69 bytes\n
# Names with a blank, %, LF, CR, bytes past ASCII, and hidden ones.
a b=x, a%0Ab=, l\nf\r=y\n, é=, .hidden=h, d/.e/f= => BAGSET 1\nFILE 7 1\n.hiddenh\nFILE 3 1\na bx\nFILE 5 0\na%0Ab\nFILE 6 0\nd/.e/f\nFILE 4 2\nl\nf\ry\n\nFILE 2 0\né\nEND\n => packed 6 files 104 bytes\n
# Names that begin with dots.
..a=, .../b= => BAGSET 1\nFILE 5 0\n.../b\nFILE 3 0\n..a\nEND\n => packed 2 files 41 bytes\n
";

/// Fails where the form gives another form, once it is unpacked and packed again.
fn pack_again(rt: &HostRuntime, form: &[u8]) -> Result<(), Fail> {
    // A folder may be named with a slash after it.
    unpack_here(rt, "folders/worked.bagset", "folders/unpacked")?;
    pack_here(rt, "folders/unpacked/", "folders/again.bagset")?;
    compare(rt, "folders/again.bagset", form)?;
    finish(rt, "folders/unpacked")
}

/// Packs these files, and what the form gives once more.
fn pack_row(rt: &HostRuntime, files: &str, form: &[u8], line: &str) -> Result<(), Fail> {
    lay(rt, "folders/worked", files)?;
    fs::create_dir_all(rt, "folders/worked/empty/.folder")?;
    packs_as(rt, "folders/worked", "folders/worked.bagset", line, "")?;
    compare(rt, "folders/worked.bagset", form)?;
    pack_again(rt, form)?;
    finish(rt, "folders/worked")
}

/// Packs the files of a row, whose rest is the form and the line.
fn pack_marked(rt: &HostRuntime, files: &str, rest: &str) -> Result<(), Fail> {
    let (form, line) = rest.split_once(" => ").ok_or(rest)?;
    let form = bytes_of(rt.alloc(), form)?;
    let line = text_of(rt.alloc(), line)?;
    pack_row(rt, files, form.as_slice(), line.as_str())
}

#[test]
fn packs_what_was_worked_out(rt: HostRuntime) -> Result<(), Fail> {
    make_folder(&rt, "folders")?;
    let rows = rows_of(rt.alloc(), FOLDERS, 4)?;
    for (files, rest) in &rows {
        pack_marked(&rt, files, rest)?;
    }
    finish(&rt, "folders")
}

/// What is said as a folder is packed to a form that is in it. The second time that form is one of
/// the files.
static INSIDE: [&str; 2] = ["packed 1 files 25 bytes\n", "packed 2 files 65 bytes\n"];

#[test]
fn the_form_may_stand_in_the_folder(rt: HostRuntime) -> Result<(), Fail> {
    let folder = "form-inside/inside";
    make_folder_with(&rt, "form-inside", folder, "a=1")?;
    for line in &INSIDE {
        packs_as(&rt, folder, "form-inside/inside/form", line, "")?;
    }
    finish(&rt, "form-inside")
}

/// What a link is to point at.
static TARGETS: [&str; 3] = ["data", "..", "nowhere"];

/// Where no form is written of a folder with a link.
const NOT_LINKED: &str = "links/linked.bagset";

/// Packs a folder with a file `data`, which clashes, and which comes after a name.
fn refuse_clash(rt: &HostRuntime) -> Result<(), Fail> {
    make_folder_with(rt, "links", "links/linked", "data=")?;
    packs_as(rt, "links/linked", NOT_LINKED, "unpackable S8\n", " (S8)")
}

/// Packs the folder with a link in it that points at this.
fn refuse_link(rt: &HostRuntime, target: &str) -> Result<(), Fail> {
    symlink(rt, target, "links/linked/folder/link")?;
    packs_as(
        rt,
        "links/linked",
        NOT_LINKED,
        "unpackable NAME\n",
        "the entry folder/link of the folder is neither a file nor a folder, such as a link (NAME)\n",
    )?;
    fs::remove_file(rt, "links/linked/folder/link")?;
    Ok(())
}

#[test]
fn follows_no_link(rt: HostRuntime) -> Result<(), Fail> {
    refuse_clash(&rt)?;
    fs::create_dir(&rt, "links/linked/folder")?;
    for target in &TARGETS {
        refuse_link(&rt, target)?;
    }
    assert!(rt; !fs::exists(&rt, NOT_LINKED)?);
    finish(&rt, "links")
}

/// Texts that are no form, the line that says so, and why, with marks.
static NO_FORMS: &str = r"
 => unreadable S3\n => the form ends too early: it stops before the end of the line END (S3)\n
BAGSET 2\nEND\n => unreadable S1\n => {no-form}
BAGSET 1\nFILE 4 0\n../a\nEND\n => unreadable S5 9\n => {no-path}
BAGSET 1\nFILE 2 0\n/a\nEND\n => unreadable S5 9\n => {no-path}
BAGSET 1\nFILE 1 0\na\nFILE 3 0\na/b\nEND\n => unreadable S8\n => a path of the form is data, or names both a file and a folder (S8)\n
BAGSET 1\nEND\n\n => unreadable S7\n => the form goes on after its line END (S7)\n
";

/// Unpacks what is no form.
fn unpack_row(rt: &HostRuntime, line: &str, reason: &str) -> Result<(), Fail> {
    let form = "no-forms/none.bagset";
    unpacks_as(rt, form, "no-forms/none", line, reason)?;
    if fs::exists(rt, "no-forms/none")? {
        return Err(Fail::new("a folder"));
    }
    // That comes before what is there.
    unpacks_as(rt, form, form, line, reason)
}

/// Writes a text with marks to the file that is unpacked.
fn write_marked(rt: &HostRuntime, text: &str) -> Result<(), Fail> {
    let bytes = bytes_of(rt.alloc(), text)?;
    fs::write(rt, "no-forms/none.bagset", bytes.as_slice())?;
    Ok(())
}

/// Unpacks the text of a row, whose rest is the line and the reason.
fn unpack_marked(rt: &HostRuntime, text: &str, rest: &str) -> Result<(), Fail> {
    let (line, reason) = rest.split_once(" => ").ok_or(rest)?;
    write_marked(rt, text)?;
    let line = text_of(rt.alloc(), line)?;
    let reason = text_of(rt.alloc(), reason)?;
    unpack_row(rt, line.as_str(), reason.as_str())
}

#[test]
fn refuses_what_is_no_form(rt: HostRuntime) -> Result<(), Fail> {
    make_folder(&rt, "no-forms")?;
    let rows = rows_of(rt.alloc(), NO_FORMS, 6)?;
    for (text, rest) in &rows {
        unpack_marked(&rt, text, rest)?;
    }
    finish(&rt, "no-forms")
}

/// What is told of the device that fails as the folder is packed, or no text.
fn pack_trouble(rt: &HostRuntime, folder: &str) -> Result<String, AllocError> {
    match pack_here(rt, folder, "no.bagset") {
        Err(PackFault::Device(trouble)) => format!(in rt.alloc(); "{trouble}"),
        _ => Ok(String::new(rt.alloc())),
    }
}

/// What is told of the device that fails as the form is unpacked, or no text.
fn unpack_trouble(rt: &HostRuntime, file: &str) -> Result<String, AllocError> {
    match unpack_here(rt, file, "no folder") {
        Err(UnpackFault::Device(trouble)) => format!(in rt.alloc(); "{trouble}"),
        _ => Ok(String::new(rt.alloc())),
    }
}

/// What is no file, and what is told where it is to be unpacked.
static NO_FILES: [(&str, &str); 2] = [
    (
        "no.bagset",
        "cannot read no.bagset: No such file or directory (os error 2)",
    ),
    (
        "no-form",
        "cannot read no-form: this is a folder; a bag's transfer form is wanted, which depot pack makes of it",
    ),
];

#[test]
fn tells_what_failed(rt: HostRuntime) -> Result<(), Fail> {
    let told = pack_trouble(&rt, "no folder")?;
    holds(
        &rt,
        told.as_str() == "cannot list no%20folder: No such file or directory (os error 2)",
        &told,
    );
    Ok(())
}

#[test]
fn tells_what_is_no_file(rt: HostRuntime) -> Result<(), Fail> {
    make_folder(&rt, "no-form")?;
    for (file, wanted) in &NO_FILES {
        let told = unpack_trouble(&rt, file)?;
        holds(&rt, told.as_str() == *wanted, file);
    }
    finish(&rt, "no-form")
}

/// Files of which none is payload, and whether a folder `data` is made for them.
static NO_PAYLOAD: [(&str, bool); 3] = [
    ("bagit.txt=, manifest-sha256.txt=", true),
    ("manifest-sha256.txt=, x/bagit.txt=", false),
    ("", false),
];

/// Whether the copy that is made of these files by their form has a folder `data`.
fn has_data(rt: &HostRuntime, files: &str) -> Result<bool, Fail> {
    make_folder_with(rt, "no-payload", "no-payload/bag", files)?;
    pack_here(rt, "no-payload/bag", "no-payload/form")?;
    unpack_here(rt, "no-payload/form", "no-payload/copy")?;
    Ok(fs::exists(rt, "no-payload/copy/data")?)
}

/// Fails where the copy has another form.
fn compare_copy(rt: &HostRuntime) -> Result<(), Fail> {
    pack_here(rt, "no-payload/copy", "no-payload/again")?;
    let form = fs::read(rt, "no-payload/form")?;
    compare(rt, "no-payload/again", form.as_slice())
}

#[test]
fn a_bag_without_a_payload_has_its_folder(rt: HostRuntime) -> Result<(), Fail> {
    for (files, is_made) in &NO_PAYLOAD {
        holds(&rt, has_data(&rt, files)? == *is_made, files);
        compare_copy(&rt)?;
    }
    finish(&rt, "no-payload")
}
