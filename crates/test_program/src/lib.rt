//! Runs of the program through its public function, and what each prints.
#![tactic(auto)]

#[cfg(test)]
mod tests;
