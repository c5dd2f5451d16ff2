//! The version of the program.

/// The version of the program. It is here alone: whatever else prints it takes it from here.
pub const VERSION: &str = "1.0";
