//! Numbers among the words.

ghost use Rattle.std.specs.Prelude.{◌≡◌, ◌==◌, ◌<◌, ◌^◌, ℕ, MatchOption, slice_index};
ghost use Rattle.command_line.specs.Lines.{IsCount, IsPort, WritesNumber};

/// The most connections that a call serves.
pub const MAX_COUNT: u32 = 1_000_000;

/// The last port.
pub const MAX_PORT: u32 = 65_535;

/// Whether a plus comes first, which `parse` would take.
fn has_plus(text: &[u8]) -> bool
    ensures { result ≡ (slice_index text.now 0 == 43) }
{
    match text {
        [b'+', ..] => true,
        _ => false,
    }
}

/// The number that decimal digits write. It may begin with zeros.
fn read_number(text: &str) -> Option<u32>
    ensures { MatchOption result ((number : ℕ)
        → WritesNumber text.now number → number < 2 ^ 32 → ⊥)
        (WritesNumber text.now) }
{
    if has_plus(text.as_bytes()) {
        return None;
    }
    text.parse::<u32>().ok()
}

/// The port that a text writes.
pub fn read_port(text: &str) -> Option<u16>
    ensures { MatchOption result ((port : ℕ) → IsPort text.now port → ⊥) (IsPort text.now) }
{
    let number = read_number(text)?;
    if number > MAX_PORT {
        return None;
    }
    Some(number as u16)
}

/// The number of connections that a text writes.
pub fn read_count(text: &str) -> Option<u32>
    ensures { MatchOption result ((count : ℕ)
        → IsCount text.now count → ⊥) (IsCount text.now) }
{
    let number = read_number(text)?;
    if number < 1 || number > MAX_COUNT {
        return None;
    }
    Some(number)
}
