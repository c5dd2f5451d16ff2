//! What a request asks, but for the bytes of its body.

ghost use Rattle.std.specs.Prelude.{◌≡◌};
ghost use Rattle.desk_hearing.specs.Asking.{ask_and_bag, bag_in};

use desk_forms::OwnedPath;
use office_core::{Name, OwnedDescription, OwnedMatter, OwnedName, Request, Years};

/// What a request asks of the office, but for the bytes of its body, which are the bag of a
/// deposit. Deposits and holds are asked for by their numbers.
#[derive(Drop)]
pub(crate) enum OwnedRequest {
    DefineClass {
        name: OwnedName,
        years: Years,
    },
    DefineCollection {
        name: OwnedName,
    },
    Deposit {
        description: OwnedDescription,
    },
    List {
        collection: Option<OwnedName>,
        class: Option<OwnedName>,
    },
    Record {
        deposit: u32,
    },
    Holds {
        deposit: u32,
    },
    DownloadBag {
        deposit: u32,
    },
    DownloadFile {
        deposit: u32,
        path: OwnedPath,
    },
    Audit {
        deposit: u32,
    },
    HoldDeposit {
        deposit: u32,
        matter: OwnedMatter,
    },
    HoldCollection {
        collection: OwnedName,
        matter: OwnedMatter,
    },
    HoldClass {
        class: OwnedName,
        matter: OwnedMatter,
    },
    Release {
        hold: u32,
    },
    Dispose {
        deposit: u32,
    },
    DueList,
}

fn lend_optional(name: &Option<OwnedName>) -> Option<Name<'_>>
    ensures { result ≡ name.now }
{
    match name {
        Some(name) => Some(name.lend()),
        None => None,
    }
}

impl OwnedRequest {
    /// The request that asks this, with these bytes as its body.
    pub(crate) fn lend<'a>(&'a self, body: &'a [u8]) -> Request<'a>
        ensures { ask_and_bag result ≡ (self.now, bag_in self.now body.now) }
    {
        match self {
            OwnedRequest::DefineClass { name, years } => Request::DefineClass {
                name: name.lend(),
                years: *years,
            },
            OwnedRequest::DefineCollection { name } => Request::DefineCollection {
                name: name.lend(),
            },
            OwnedRequest::Deposit { description } => Request::Deposit {
                description: description.lend(),
                bag: body,
            },
            OwnedRequest::List { collection, class } => Request::List {
                collection: lend_optional(collection),
                class: lend_optional(class),
            },
            OwnedRequest::DownloadFile { deposit, path } => Request::DownloadFile {
                deposit: *deposit,
                path: path.as_bytes(),
            },
            OwnedRequest::HoldDeposit { deposit, matter } => Request::HoldDeposit {
                deposit: *deposit,
                matter: matter.lend(),
            },
            OwnedRequest::HoldCollection { collection, matter } => Request::HoldCollection {
                collection: collection.lend(),
                matter: matter.lend(),
            },
            OwnedRequest::HoldClass { class, matter } => Request::HoldClass {
                class: class.lend(),
                matter: matter.lend(),
            },
            OwnedRequest::Record { deposit } => Request::Record { deposit: *deposit },
            OwnedRequest::Holds { deposit } => Request::Holds { deposit: *deposit },
            OwnedRequest::DownloadBag { deposit } => Request::DownloadBag { deposit: *deposit },
            OwnedRequest::Audit { deposit } => Request::Audit { deposit: *deposit },
            OwnedRequest::Release { hold } => Request::Release { hold: *hold },
            OwnedRequest::Dispose { deposit } => Request::Dispose { deposit: *deposit },
            OwnedRequest::DueList => Request::DueList,
        }
    }
}
