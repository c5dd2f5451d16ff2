//! The numbers that are given next, up to a limit.

ghost use Rattle.std.specs.Prelude.{◌≡◌, IfOk, Some, option_map, pos};
ghost use Rattle.std.specs.Result.{result_err};
ghost use Rattle.office_by_rows.specs.Refusals.{full_after, number_after};

use office_core::Refusal;

/// The number after the last, where the limit allows one more; else that the office is full.
pub fn number_after(last: Option<u32>, limit: u32) -> Result<u32, Refusal>
    ensures full { full_after (pos limit) (option_map pos last) ≡ Some (result_err result) }
    ensures number { IfOk result (λ number. number_after (option_map pos last) ≡ Some number) }
{
    let last = last.unwrap_or(0);
    if limit <= last {
        return Err(Refusal::Full);
    }
    Ok(last + 1)
}
