//! The field `Allow`.

ghost use Rattle.std.specs.Prelude.{◌≡◌, IfOk, string_bytes};
ghost use Rattle.desk_answers.specs.DeskRefusals.{methods_text, allow_line};

use desk_routes::{DeskRefusal, Method};
use std::alloc::{AllocError, Global};

/// The methods with `, ` between them.
fn methods_text(alloc: Global, methods: &[Method]) -> Result<String, AllocError>
    ensures { IfOk result (λ text. string_bytes text ≡ methods_text methods.now) }
{
    match methods {
        [] => Ok(String::new(alloc)),
        [last] => String::from_str(alloc, last.as_str()),
        [first, others @ ..] => {
            let first = first.as_str();
            let others = methods_text(alloc, others)?;
            format!(in alloc; "{first}, {others}")
        }
    }
}

/// The line that names the target's methods, where the method was wrong, and else nothing.
pub(crate) fn allow_line(alloc: Global, refusal: DeskRefusal) -> Result<String, AllocError>
    ensures { IfOk result (λ line. string_bytes line ≡ allow_line refusal) }
{
    match refusal {
        DeskRefusal::Method(pattern) => {
            let methods = methods_text(alloc, pattern.methods())?;
            format!(in alloc; "Allow: {methods}\r\n")
        }
        DeskRefusal::TooLarge
        | DeskRefusal::Truncated
        | DeskRefusal::BadHead
        | DeskRefusal::Chunked
        | DeskRefusal::BadLength
        | DeskRefusal::TwoCallers
        | DeskRefusal::NoRoute
        | DeskRefusal::BadQuery
        | DeskRefusal::BadBody => Ok(String::new(alloc)),
    }
}
