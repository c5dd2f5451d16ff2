//! What the counts of a deposit's row mean. A row with a count that means nothing comes from no accepted
//! change, and is a fault of the store.

ghost use Rattle.std.specs.Prelude.{◌≡◌};
ghost use Rattle.std.specs.Option.{ok_or};
ghost use Rattle.office_contents.specs.declared.fault.TableFault.TheVariants.{Store};
ghost use Rattle.office_by_rows.specs.Values.{count_up_to};

use office_tables::TableFault;

/// The count that a number is, where it is no more than there may be at most.
///
/// Fails with `Store`.
pub fn count_in(number: i64, most: usize) -> Result<usize, TableFault>
    ensures { result ≡ ok_or (count_up_to most number) TableFault.Store }
{
    match usize::try_from(number) {
        Ok(count) if count <= most => Ok(count),
        _ => Err(TableFault::Store),
    }
}
