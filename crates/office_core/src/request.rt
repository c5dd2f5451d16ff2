//! What a caller asks of the office.

ghost use Rattle.std.specs.Prelude.{IfSome};
ghost use Rattle.office_core.specs.Names.{IsName};
ghost use Rattle.office_core.specs.Requests.{IsRequest};

use crate::description::Description;
use crate::names::{Matter, Name};
use crate::retention::Years;

/// What a caller asks of the office. Deposits and holds are asked for by their numbers, from 1.
#[derive(Debug, Drop)]
pub enum Request<'a> {
    /// Define a class, or set the years of one that is there.
    DefineClass {
        name: Name<'a>,
        years: Years,
    },
    /// Define a collection. One that is there stays as it is.
    DefineCollection {
        name: Name<'a>,
    },
    /// Deposit the bag whose transfer form the bytes are.
    Deposit {
        description: Description<'a>,
        bag: &'a [u8],
    },
    /// List the kept deposits: of one collection, of one class, or of all.
    List {
        collection: Option<Name<'a>>,
        class: Option<Name<'a>>,
    },
    /// The record of a deposit.
    Record {
        deposit: u32,
    },
    /// The live holds that cover a deposit.
    Holds {
        deposit: u32,
    },
    /// The transfer form of a deposit's bag.
    DownloadBag {
        deposit: u32,
    },
    /// The file of a deposit's bag at a path.
    DownloadFile {
        deposit: u32,
        path: &'a [u8],
    },
    /// Check the bag of a deposit, as it is stored.
    Audit {
        deposit: u32,
    },
    /// Hold a deposit.
    HoldDeposit {
        deposit: u32,
        matter: Matter<'a>,
    },
    /// Hold a collection: all its deposits, those that come later too.
    HoldCollection {
        collection: Name<'a>,
        matter: Matter<'a>,
    },
    /// Hold a class: all its deposits, those that come later too.
    HoldClass {
        class: Name<'a>,
        matter: Matter<'a>,
    },
    /// Release a hold.
    Release {
        hold: u32,
    },
    /// Destroy a deposit.
    Dispose {
        deposit: u32,
    },
    /// The deposits that the caller may destroy that day.
    DueList,
}

/// An optional name is a name where it is there. Does nothing when it runs.
fn prove_optional_name(name: &Option<Name<'_>>)
    ensures { IfSome name.now IsName }
{
    if let Some(name) = name {
        let _text = name.as_str();
    }
}

impl Request<'_> {
    /// Each part of the request is in its range: names and the matter have their forms, the years are
    /// at most 200, and a description is in its range.
    ///
    /// It does nothing when it runs. Code that has a request calls it where a proof needs the fact.
    pub fn prove_in_range(&self)
        ensures { IsRequest self.now }
    {
        match self {
            Request::DefineClass { name, years } => {
                let _name = name.as_str();
                let _years = years.count();
            }
            Request::DefineCollection { name } => {
                let _name = name.as_str();
            }
            Request::Deposit { description, .. } => {
                description.prove_in_range();
            }
            Request::List { collection, class } => {
                prove_optional_name(collection);
                prove_optional_name(class);
            }
            Request::HoldDeposit { matter, .. } => {
                let _matter = matter.as_str();
            }
            Request::HoldCollection { collection, matter } => {
                let _collection = collection.as_str();
                let _matter = matter.as_str();
            }
            Request::HoldClass { class, matter } => {
                let _class = class.as_str();
                let _matter = matter.as_str();
            }
            Request::Record { .. }
            | Request::Holds { .. }
            | Request::DownloadBag { .. }
            | Request::DownloadFile { .. }
            | Request::Audit { .. }
            | Request::Release { .. }
            | Request::Dispose { .. }
            | Request::DueList => {}
        }
    }
}
