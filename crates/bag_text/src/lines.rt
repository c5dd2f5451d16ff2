//! The lines of a text.

ghost use Rattle.std.specs.Prelude.{◌≡◌, ◌<◌, List, ◌∷◌, length, ℕ, IfSome, Some, option_copied};
ghost use Rattle.std.specs.List.{position_or_len};
ghost use Rattle.bag_text.specs.Lines.{is_end, lines, numbered_line};
ghost use Rattle.bag_text.specs.LineReading.{after_end_of};
ghost use Rattle.bag_text.specs.Manifest.{LineIs};

/// How many bytes come before the first end.
fn line_len(text: &[u8]) -> usize
    ensures { result ≡ position_or_len is_end text.now }
{
    text.iter()
        .position(|b| matches!(*b, b'\n' | b'\r'))
        .unwrap_or(text.len())
}

/// What follows an end.
fn after_end(rest: &[u8]) -> &[u8]
    ensures { result.now ≡ after_end_of rest.now }
{
    match rest {
        [] => rest,
        [b'\r', b'\n', after @ ..] => after,
        [_, after @ ..] => after,
    }
}

/// The first line of a text, and what follows its end.
#[tactic(auto, using(crate::proofs::LineLemmas::lines_step, crate::proofs::LineLemmas::shorter, crate::proofs::LineLemmas::fits))]
pub fn split_line(text: &[u8]) -> (&[u8], &[u8])
    requires { 0 < length text.now }
    ensures lines { lines text.now ≡ result.0.now ∷ lines result.1.now }
    ensures shorter { length result.1.now < length text.now }
{
    let (line, rest) = text.split_at(line_len(text));
    (line, after_end(rest))
}

/// The line of this number, from 1, where the text has that many.
pub fn line_at(text: &[u8], number: usize) -> Option<&[u8]>
    ensures is { IfSome result (λ line. LineIs text.now number line.now) }
    ensures found { (line : List ℕ) →
        LineIs text.now number line → option_copied result ≡ Some line }
    ensures exact { option_copied result ≡ numbered_line text.now number }
{
    let mut rest = text;
    let mut before = number.checked_sub(1)?;
    while !rest.is_empty() {
        let (line, after) = split_line(rest);
        if before == 0 {
            return Some(line);
        }
        rest = after;
        before -= 1;
    }
    None
}
