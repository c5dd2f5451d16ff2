//! Runs of requests.

ghost use Rattle.std.specs.Prelude.{◌≡◌, IfOk, OnErr};
ghost use Rattle.office_history.specs.Runs.{IsLegal, Run, RunFailing};
ghost use Rattle.test_plain.specs.Offices.{IsWantOfMemory};

use crate::history::Office;
use office_core::{Answer, Day, Request};
use std::alloc::{AllocError, Global};

impl Office {
    /// Answers requests one after the other, each with its day and its caller: each as `step` does,
    /// so memory alone may fail. The room for the answers is taken first: an `Err` has done
    /// nothing. A legal history stays legal.
    pub fn run(
        &mut self,
        alloc: Global,
        items: &[(Day, &str, Request<'_>)],
    ) -> Result<Vec<Answer>, AllocError>
        ensures served { IfOk result (λ answers.
            RunFailing IsWantOfMemory self.old items.now answers.items self.new) }
        ensures ran { IfOk result (λ answers. Run self.old items.now answers.items self.new) }
        ensures failed { OnErr result (self.new ≡ self.old) }
        ensures legal { IsLegal self.old → IsLegal self.new }
    {
        let mut answers = Vec::with_capacity(alloc, items.len())?;
        for item in items {
            let answer = self.step(alloc, item.0, item.1, &item.2);
            answers.push(answer)?;
        }
        Ok(answers)
    }
}
