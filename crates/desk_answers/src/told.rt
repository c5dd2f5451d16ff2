//! Lists in JSON. The text is made item by item: the value of one item is in memory at a time.

ghost use Rattle.std.specs.Prelude.{◌≡◌, [], ◌∷◌, ◌++◌, IfOk, OnOk, codes, map};
ghost use Rattle.serde_json.specs.Data.{Data, string};
ghost use Rattle.serde_json.specs.Written.{comma_if, compact_text};
ghost use Rattle.desk_answers.specs.Objects.{object_of, list_of};

use serde_json::Value;
use std::alloc::{AllocError, Global};

/// What a list has an item for.
pub(crate) trait Told {
    /// What its item says.
    ghost told: { Self → Data };

    /// What its item says, in JSON.
    fn text(&self, alloc: Global) -> Result<Vec<u8>, AllocError>
        ensures { IfOk result (λ text. text.items ≡ compact_text (told self.now)) };
}

/// What comes before the items of a list that is the one member of an object.
fn opening(alloc: Global, key: &str) -> Result<Vec<u8>, AllocError>
    ensures { IfOk result (λ text. text.items
        ≡ codes "{" ++ (compact_text (string key.now) ++ codes ":[")) }
{
    let key = Value::try_from_str(alloc, key)?.to_string(alloc)?;
    Ok(format!(in alloc; "{{{key}:[")?.into_bytes())
}

/// Puts the item after the text, and a comma before it unless it is the first.
fn push_item<T: Told>(
    alloc: Global,
    text: &mut Vec<u8>,
    later: bool,
    item: &T,
) -> Result<(), AllocError>
    ensures { OnOk result (text.new.items
        ≡ text.old.items ++ (comma_if later ++ compact_text (T.told item.now))) }
{
    if later {
        text.push(b',')?;
    }
    text.extend_from_slice(&item.text(alloc)?)
}

/// The object whose one member is the list of the items, in JSON.
pub(crate) fn list_text<T: Told>(
    alloc: Global,
    key: &str,
    items: &[T],
) -> Result<Vec<u8>, AllocError>
    ensures { IfOk result (λ text. text.items
        ≡ compact_text (object_of ((key.now, list_of (map T.told items.now)) ∷ []))) }
{
    let mut text = opening(alloc, key)?;
    let mut later = false;
    for item in items {
        push_item(alloc, &mut text, later, item)?;
        later = true;
    }
    text.extend_from_slice(b"]}")?;
    Ok(text)
}
