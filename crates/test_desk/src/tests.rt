//! A file for each crate of the desk.

mod answers;
mod devices;
mod forms;
mod heads;
mod hearing;
mod records;
mod routes;
mod rows;
