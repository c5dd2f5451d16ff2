//! What a deposit is about.

ghost use Rattle.std.specs.Prelude.{◌≡◌, IfOk};
ghost use Rattle.office_core.specs.Descriptions.{IsDescription};

use crate::day::Day;
use crate::names::{Accession, Name, OwnedAccession, OwnedName};
use std::alloc::{AllocError, Global};

/// What a deposit is about, with names of the type `N` and an accession number of the type `A`.
#[derive(Debug, Drop)]
pub struct DescriptionOf<N, A> {
    pub collection: N,
    pub class: N,
    pub accession: A,
    /// The day on which the records were closed.
    pub closed: Day,
}

/// What a deposit is about.
pub type Description<'a> = DescriptionOf<Name<'a>, Accession<'a>>;

/// What a deposit is about, with texts of its own.
pub type OwnedDescription = DescriptionOf<OwnedName, OwnedAccession>;

impl<'a> DescriptionOf<Name<'a>, Accession<'a>> {
    /// The same description, owned.
    pub fn to_owned(&self, alloc: Global) -> Result<OwnedDescription, AllocError>
        ensures { IfOk result (λ owned. owned ≡ self.now) }
    {
        Ok(DescriptionOf {
            collection: self.collection.to_owned(alloc)?,
            class: self.class.to_owned(alloc)?,
            accession: self.accession.to_owned(alloc)?,
            closed: self.closed,
        })
    }

    /// Each part of the description is in its range: the names and the accession number have their
    /// forms, and the closing day is a day of the office.
    ///
    /// It does nothing when it runs. Code that has a description calls it where a proof needs the
    /// fact.
    pub fn prove_in_range(&self)
        ensures { IsDescription self.now }
    {
        let _collection = self.collection.as_str();
        let _class = self.class.as_str();
        let _accession = self.accession.as_str();
        let _closed = self.closed.date();
    }
}

impl DescriptionOf<OwnedName, OwnedAccession> {
    /// The same description, lent.
    pub fn lend(&self) -> Description<'_>
        ensures { result ≡ self.now }
    {
        DescriptionOf {
            collection: self.collection.lend(),
            class: self.class.lend(),
            accession: self.accession.lend(),
            closed: self.closed,
        }
    }
}
