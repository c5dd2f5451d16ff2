//! How a command ends that did its work.

ghost use Rattle.office_stores.specs.Texts.{IsQuiet};

use commands::Ending;

/// How a command that came to its end ends, and what is to be printed to standard error: why the answer is
/// no, where it is, in lines with their ends.
#[derive(Debug, Drop)]
pub struct Done {
    pub reason: Option<String>,
    pub ending: Ending,
}

impl Done {
    /// It ends well, and there is nothing to print.
    pub fn quiet() -> Done
        ensures { IsQuiet result }
    {
        Done {
            reason: None,
            ending: Ending::Accepted,
        }
    }
}
