//! The calls of `office_tables`, over files and in memory.

mod answers;
mod calls;
mod changes;
mod openings;
mod refusals;
mod sizes;
pub(crate) mod steps;
pub(crate) mod tests;
pub(crate) mod tests_stops;
