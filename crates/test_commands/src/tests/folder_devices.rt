//! What a file system that fails leaves.

use crate::tests::failing::{Failing, Fault};
use crate::tests::folders::{
    BAG_FILES, compare, finish, is_bag, make_folder, make_folder_with, pack_here,
};
use crate::tests::rows::holds;
use bag_folders::{Odd, PackFault, Packed, UnpackFault, Unpacked, pack, unpack};
use fault_words::OddCause;
use std::fs;
use std::test::*;
use test_bags::bytes_of;

/// Packs over files with this fault.
fn pack_with(failing: &Failing<'_>, folder: &str, file: &str) -> Result<Packed, PackFault> {
    pack(failing, folder, file)
}

/// Unpacks over files with this fault.
fn unpack_with(failing: &Failing<'_>) -> Result<Unpacked, UnpackFault> {
    unpack(failing, "half-folders/failing.bagset", "half-folders/half")
}

/// How many names are in the folder.
fn names_in(rt: &HostRuntime, folder: &str) -> Result<usize, Fail> {
    let mut count = 0;
    for entry in fs::read_dir(rt, folder)? {
        entry?;
        count = usize::saturating_add(count, 1);
    }
    Ok(count)
}

/// Whether a device fails as a folder is packed over files with this fault. Then there is this number of names
/// in the folder of the form, or the test fails.
fn is_stopped_by(rt: &HostRuntime, fault: Fault, names: usize) -> Result<bool, Fail> {
    let failing = Failing::new(rt, fault);
    match pack_with(&failing, "half-forms/failing", FORM) {
        Err(PackFault::Device(_)) => {}
        Err(fault) => return Err(Fail::new(fault)),
        Ok(_) => return Ok(false),
    }
    if failing.has_failed() && names_in(rt, "half-forms/out")? == names {
        return Ok(true);
    }
    Err(Fail::new("half of a form"))
}

/// Where bag A's form is written.
const FORM: &str = "half-forms/out/failing.bagset";

/// The last call that may fail, of those that a `pack` makes.
fn last_call(rt: &HostRuntime) -> Result<u32, Fail> {
    let mut failed = 0u32;
    for number in 0..100 {
        if !is_stopped_by(rt, Fault::Call(number), 0)? {
            break;
        }
        failed = number;
    }
    Ok(failed)
}

/// Whether a form is written as the last call doesn't fail, and none before.
fn is_written_last(rt: &HostRuntime) -> Result<bool, Fail> {
    // Two folders, four entries, three files, the name, the file beside it, its last name.
    Ok(last_call(rt)? == 11 && is_bag(rt, FORM)?)
}

/// Faults of which none comes to the end of a `pack`.
static FAULTS: [Fault; 3] = [Fault::Write, Fault::Sync, Fault::Call(9)];

/// Whether what has the name stays as it is where a `pack` of other files fails.
fn stays(rt: &HostRuntime) -> Result<bool, Fail> {
    fs::remove_file(rt, "half-forms/failing/data/a")?;
    for fault in &FAULTS {
        if !is_stopped_by(rt, *fault, 1)? || !is_bag(rt, FORM)? {
            return Ok(false);
        }
    }
    Ok(true)
}

/// Packs beside a file with a name that a `pack` may take for its own: how many names are there then.
fn pack_beside(rt: &HostRuntime) -> Result<usize, Fail> {
    fs::write(rt, "half-forms/out/.depot-pack-0", b"taken")?;
    pack_here(rt, "half-forms/failing", FORM)?;
    compare(rt, "half-forms/out/.depot-pack-0", b"taken")?;
    names_in(rt, "half-forms/out")
}

/// Whether such a name may be the one that is wanted.
fn takes_such_a_name(rt: &HostRuntime) -> Result<bool, Fail> {
    let packed = pack_here(rt, "half-forms/failing", "half-forms/out/.depot-pack-1")?;
    Ok(packed.files == 2 && names_in(rt, "half-forms/out")? == 3)
}

#[test]
fn no_half_of_a_form_is_left(rt: HostRuntime) -> Result<(), Fail> {
    make_folder_with(&rt, "half-forms", "half-forms/failing", BAG_FILES)?;
    fs::create_dir(&rt, "half-forms/out")?;
    assert!(rt; is_written_last(&rt)?);
    assert!(rt; stays(&rt)?);
    assert!(rt; pack_beside(&rt)? == 2);
    assert!(rt; takes_such_a_name(&rt)?);
    finish(&rt, "half-forms")
}

/// Where no form can be written: a folder, a device, and a name in a folder that isn't there.
static PLACES: [&str; 3] = ["places/kept/data", "/dev/null", "places/kept/no/form"];

/// Whether a device fails as the folder is packed to that place.
fn is_no_place(rt: &HostRuntime, place: &str) -> bool {
    matches!(
        pack_here(rt, "places/kept", place),
        Err(PackFault::Device(_))
    )
}

#[test]
fn only_a_file_is_written_over(rt: HostRuntime) -> Result<(), Fail> {
    make_folder_with(&rt, "places", "places/kept", BAG_FILES)?;
    for place in &PLACES {
        holds(&rt, is_no_place(&rt, place), place);
    }
    assert!(rt; pack_here(&rt, "places/kept", "places/kept.bagset")?.files == 3);
    finish(&rt, "places")
}

/// Writes the form that is unpacked.
fn write_bag(rt: &HostRuntime) -> Result<(), Fail> {
    let form = bytes_of(rt.alloc(), r"BAGSET 1\n{bag}")?;
    fs::write(rt, "half-folders/failing.bagset", form.as_slice())?;
    Ok(())
}

/// Removes the folder that was unpacked, or the half of it.
fn remove_half(rt: &HostRuntime) -> Result<(), Fail> {
    if fs::exists(rt, "half-folders/half")? {
        fs::remove_dir_all(rt, "half-folders/half")?;
    }
    Ok(())
}

/// Whether a device fails as the form is unpacked over files with this fault. Then the fault was met, or
/// the test fails.
fn stops_unpacking(rt: &HostRuntime, fault: Fault) -> Result<bool, Fail> {
    let failing = Failing::new(rt, fault);
    match unpack_with(&failing) {
        Err(UnpackFault::Device(_)) => {}
        Err(fault) => return Err(Fail::new(fault)),
        Ok(_) => return Ok(false),
    }
    if failing.has_failed() {
        return Ok(true);
    }
    Err(Fail::new("another call"))
}

#[test]
fn unpacking_may_fail_anywhere(rt: HostRuntime) -> Result<(), Fail> {
    make_folder(&rt, "half-folders")?;
    write_bag(&rt)?;
    for number in 0..100 {
        let is_stopped = stops_unpacking(&rt, Fault::Call(number))?;
        remove_half(&rt)?;
        if !is_stopped {
            break;
        }
    }
    assert!(rt; stops_unpacking(&rt, Fault::Write)?);
    finish(&rt, "half-folders")
}

/// The name that isn't UTF-8, as it is told.
fn odd_name(rt: &HostRuntime) -> Result<String, Fail> {
    match pack_with(
        &Failing::new(rt, Fault::Name),
        "found/found",
        "found/found.bagset",
    ) {
        Err(
            PackFault::Name(
                Odd {
                    path,
                    cause: OddCause::NotUtf8,
                },
            ),
        ) => Ok(path),
        _ => Err(Fail::new("a name that isn't UTF-8")),
    }
}

/// What is told of a file that was one byte longer as it was listed.
fn changed_file(rt: &HostRuntime) -> Result<String, Fail> {
    match pack_with(
        &Failing::new(rt, Fault::Size),
        "found/found",
        "found/found.bagset",
    ) {
        Err(PackFault::Device(trouble)) => Ok(format!(in rt.alloc(); "{trouble}")?),
        _ => Err(Fail::new("a file that has changed")),
    }
}

/// Whether a file that has changed is reported as unreadable.
fn tells_a_change(rt: &HostRuntime) -> Result<bool, Fail> {
    let told = changed_file(rt)?;
    Ok(told.as_str() == "cannot read found/found/bagit.txt: it changed while it was packed")
}

#[test]
fn names_and_sizes_are_those_that_are_found(rt: HostRuntime) -> Result<(), Fail> {
    make_folder_with(&rt, "found", "found/found", BAG_FILES)?;
    assert!(rt; odd_name(&rt)?.as_str() == "?");
    assert!(rt; tells_a_change(&rt)?);
    finish(&rt, "found")
}
