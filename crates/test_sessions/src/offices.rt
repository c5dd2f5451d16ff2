//! The two offices, asked alike.

use office_core::{Answer, Day, Policy, Request};
use office_tables::TableFault;
use sqlite::Alter;
use std::alloc::{AllocError, Global};
use test_plain::Stock;

/// An office: the plain one, or one over its tables.
pub trait AnyOffice {
    /// Installs a policy, in the place of the one before. Fails with `Memory` or `Store`.
    fn install(&mut self, alloc: Global, policy: Policy) -> Result<(), TableFault>;

    /// Serves a caller's request on that day.
    fn step(&mut self, alloc: Global, day: Day, caller: &str, request: &Request<'_>) -> Answer;

    /// Serves requests one after the other, each with its day and its caller.
    fn run(
        &mut self,
        alloc: Global,
        items: &[(Day, &str, Request<'_>)],
    ) -> Result<Vec<Answer>, AllocError>;

    /// How much it keeps. Fails with `Memory` or `Store`.
    fn stock(&mut self, alloc: Global) -> Result<Stock, TableFault>;
}

impl AnyOffice for test_plain::Office {
    fn install(&mut self, _: Global, policy: Policy) -> Result<(), TableFault> {
        Ok(test_plain::Office::install(self, policy)?)
    }

    fn step(&mut self, alloc: Global, day: Day, caller: &str, request: &Request<'_>) -> Answer {
        test_plain::Office::step(self, alloc, day, caller, request)
    }

    fn run(
        &mut self,
        alloc: Global,
        items: &[(Day, &str, Request<'_>)],
    ) -> Result<Vec<Answer>, AllocError> {
        test_plain::Office::run(self, alloc, items)
    }

    fn stock(&mut self, alloc: Global) -> Result<Stock, TableFault> {
        Ok(test_plain::Office::stock(self, alloc)?)
    }
}

impl<S: Alter> AnyOffice for office_engine::Office<S> {
    fn install(&mut self, alloc: Global, policy: Policy) -> Result<(), TableFault> {
        office_engine::Office::install(self, alloc, &policy)
    }

    fn step(&mut self, alloc: Global, day: Day, caller: &str, request: &Request<'_>) -> Answer {
        office_engine::Office::step(self, alloc, day, caller, request)
    }

    fn run(
        &mut self,
        alloc: Global,
        items: &[(Day, &str, Request<'_>)],
    ) -> Result<Vec<Answer>, AllocError> {
        office_engine::Office::run(self, alloc, items)
    }

    fn stock(&mut self, alloc: Global) -> Result<Stock, TableFault> {
        let found = office_engine::Office::stock(self, alloc)?;
        Ok(Stock {
            contents: found.contents,
            bytes: found.bytes,
        })
    }
}
