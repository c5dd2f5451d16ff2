//! The arguments of the command line, read.
#![tactic(auto)]

mod line;
mod number;
mod reading;
mod subcommand;
mod usages;
mod use_fault;
mod values;
mod version;
mod words;

pub use line::Line;
pub use number::MAX_COUNT;
pub use reading::read_line;
pub use subcommand::Subcommand;
pub use use_fault::UseFault;
pub use version::VERSION;
