//! What an office answers by its rows, and what it makes of them, whichever they are: functions over rows alone.
#![tactic(auto)]

pub mod laws;
