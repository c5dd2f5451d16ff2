//! Forms of many files.

ghost use Rattle.std.specs.Prelude.{◌≡◌, IfOk};
ghost use Rattle.test_bags.specs.ManyFiles.{form_without_end};

use std::alloc::{AllocError, Global};

/// A form that lacks its `END`, of this number of empty files with names of four digits.
#[tactic(auto, unfolding(crate::specs::ManyFiles::form_without_end))]
pub fn many_files(alloc: Global, count: u32) -> Result<Vec<u8>, AllocError>
    ensures { IfOk result (λ form. form.items ≡ form_without_end count) }
{
    let mut form = Vec::new(alloc);
    form.extend_from_slice(b"BAGSET 1\n")?;
    for number in 0..count {
        let entry = format!(in alloc; "FILE 4 0\n{number:04}\n")?;
        form.extend_from_slice(entry.as_bytes())?;
    }
    Ok(form)
}
