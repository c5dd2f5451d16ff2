//! What is asked in a worked row, as a value that a table can hold, and read from words.

use office_core::{Accession, Day, DescriptionOf, Matter, Name, Request, Years};
use test_bags::{BAG, BAG_0_97, NO_PAYLOAD, PERCENT};

/// What is asked. Deposits and holds are named by their numbers.
#[derive(Clone, Copy)]
pub enum TestRequest {
    /// Define a class, or revise its years.
    Class(&'static str, u8),
    /// The same, permanently.
    ForGood(&'static str),
    Collection(&'static str),
    /// Deposit a bag into a collection and a class, under an accession.
    Deposit {
        collection: &'static str,
        class: &'static str,
        accession: &'static str,
        /// The day on which the records were closed.
        closed: &'static str,
        bag: &'static [u8],
    },
    /// List all deposits.
    List,
    /// List the deposits of a collection.
    ListOf(&'static str),
    /// List the deposits of a class.
    ListOfClass(&'static str),
    /// The bag of a deposit.
    Bag(u32),
    Record(u32),
    Holds(u32),
    Audit(u32),
    /// The file of a deposit at a path.
    File(u32, &'static str),
    HoldDeposit(u32),
    HoldCollection(&'static str),
    HoldClass(&'static str),
    Release(u32),
    Dispose(u32),
    DueList,
}

/// The word at this position, or an empty one.
pub fn word<'a>(words: &[&'a str], at: usize) -> &'a str {
    match words.get(at) {
        Some(word) => word,
        None => "",
    }
}

/// The word at this position as a number, or 0.
pub fn number(words: &[&str], at: usize) -> u32 {
    word(words, at).parse().unwrap_or(0)
}

/// The bag of this name.
fn bag(name: &str) -> &'static [u8] {
    match name {
        "percent" => PERCENT,
        "0.97" => BAG_0_97,
        "empty" => NO_PAYLOAD,
        "nothing" => b"",
        _ => BAG,
    }
}

/// The day on which the records of a deposit were closed.
fn closing_day(day: &'static str) -> &'static str {
    match day {
        "" => "2024-02-29",
        _ => day,
    }
}

impl TestRequest {
    /// What the words ask. A deposit has its collection, class and accession, and may have the day on which
    /// it was closed and the name of its bag.
    pub fn read(words: &[&'static str]) -> Option<TestRequest> {
        let name = word(words, 1);
        let of = number(words, 1);
        let second = word(words, 2);
        match word(words, 0) {
            "class" => Some(TestRequest::Class(name, second.parse().ok()?)),
            "keep" => Some(TestRequest::ForGood(name)),
            "collection" => Some(TestRequest::Collection(name)),
            "deposit" => Some(TestRequest::Deposit {
                collection: name,
                class: second,
                accession: word(words, 3),
                closed: closing_day(word(words, 4)),
                bag: bag(word(words, 5)),
            }),
            "list" => Some(TestRequest::List),
            "list-of" => Some(TestRequest::ListOf(name)),
            "list-class" => Some(TestRequest::ListOfClass(name)),
            "bag" => Some(TestRequest::Bag(of)),
            "record" => Some(TestRequest::Record(of)),
            "holds" => Some(TestRequest::Holds(of)),
            "audit" => Some(TestRequest::Audit(of)),
            "file" => Some(TestRequest::File(of, second)),
            "hold" => Some(TestRequest::HoldDeposit(of)),
            "hold-all" => Some(TestRequest::HoldCollection(name)),
            "hold-class" => Some(TestRequest::HoldClass(name)),
            "release" => Some(TestRequest::Release(of)),
            "dispose" => Some(TestRequest::Dispose(of)),
            "due" => Some(TestRequest::DueList),
            _ => None,
        }
    }

    /// The request, where its names are names.
    pub fn request(self) -> Option<Request<'static>> {
        match self {
            TestRequest::Class(name, years) => Some(Request::DefineClass {
                name: Name::read(name)?,
                years: Years::new(years)?,
            }),
            TestRequest::ForGood(name) => Some(Request::DefineClass {
                name: Name::read(name)?,
                years: Years::permanent(),
            }),
            TestRequest::Collection(name) => Some(Request::DefineCollection {
                name: Name::read(name)?,
            }),
            TestRequest::Deposit {
                collection,
                class,
                accession,
                closed,
                bag,
            } => Some(Request::Deposit {
                description: DescriptionOf {
                    collection: Name::read(collection)?,
                    class: Name::read(class)?,
                    accession: Accession::read(accession)?,
                    closed: Day::read(closed)?,
                },
                bag,
            }),
            TestRequest::List => Some(Request::List {
                collection: None,
                class: None,
            }),
            TestRequest::Bag(deposit) => Some(Request::DownloadBag { deposit }),
            TestRequest::ListOf(name) => Some(Request::List {
                collection: Some(Name::read(name)?),
                class: None,
            }),
            TestRequest::ListOfClass(name) => Some(Request::List {
                collection: None,
                class: Some(Name::read(name)?),
            }),
            TestRequest::Record(deposit) => Some(Request::Record { deposit }),
            TestRequest::Holds(deposit) => Some(Request::Holds { deposit }),
            TestRequest::Audit(deposit) => Some(Request::Audit { deposit }),
            TestRequest::File(deposit, path) => Some(Request::DownloadFile {
                deposit,
                path: path.as_bytes(),
            }),
            TestRequest::HoldDeposit(deposit) => Some(Request::HoldDeposit {
                deposit,
                matter: Matter::read("Case 7")?,
            }),
            TestRequest::HoldCollection(name) => Some(Request::HoldCollection {
                collection: Name::read(name)?,
                matter: Matter::read("Case 7")?,
            }),
            TestRequest::HoldClass(name) => Some(Request::HoldClass {
                class: Name::read(name)?,
                matter: Matter::read("Case 7")?,
            }),
            TestRequest::Release(hold) => Some(Request::Release { hold }),
            TestRequest::Dispose(deposit) => Some(Request::Dispose { deposit }),
            TestRequest::DueList => Some(Request::DueList),
        }
    }
}
