//! Cases of an office: a short session, with the plain one or with one over its tables.

use crate::office::described;
use crate::outcome::Outcome;
use office_core::{
    Answer, AuditReport, Day, DepositRecord, Limits, LiveHold, Matter, Name, PolicyFault, Refusal,
    Request, Scope, Years, read_policy,
};
use office_engine::Office;
use office_tables::TableFault;
use sqlite::{Connection, MemStore};
use std::alloc::{AllocError, Global};
use test_bags::BAG;
use test_plain::Stock;
use test_sessions::AnyOffice;

/// What is asked.
#[derive(Clone, Copy)]
pub(crate) enum Part {
    Class,
    Collection,
    BadBag,
    Deposit,
    DepositAgain,
    Revision,
    Hold,
    DepositHold,
    ClassHold,
    List,
    Record,
    Holds,
    Bag,
    File,
    Audit,
    HeldDisposal,
    Release,
    DepositRelease,
    ClassRelease,
    DueList,
    DeniedDisposal,
    Disposal,
    DisposalAgain,
    Taken,
}

/// The session up to the releases: each request with its name and its day, in turn.
pub(crate) static SESSION: [(&str, &str, Part); 19] = [
    ("a class defined", "2024-03-01", Part::Class),
    ("a collection defined", "2024-03-01", Part::Collection),
    ("a bad bag refused", "2024-03-01", Part::BadBag),
    ("a bag deposited", "2024-03-01", Part::Deposit),
    ("it is deposited again", "2024-03-01", Part::DepositAgain),
    ("its class revised", "2024-03-02", Part::Revision),
    ("a hold placed", "2024-03-02", Part::Hold),
    ("a deposit held", "2024-03-02", Part::DepositHold),
    ("a class held", "2024-03-02", Part::ClassHold),
    ("a list", "2024-03-02", Part::List),
    ("a record", "2024-03-02", Part::Record),
    ("holds listed", "2024-03-02", Part::Holds),
    ("a bag served", "2024-03-02", Part::Bag),
    ("a file served", "2024-03-02", Part::File),
    ("an audit", "2024-03-02", Part::Audit),
    ("a disposal refused", "2030-01-01", Part::HeldDisposal),
    ("a hold released", "2030-01-01", Part::Release),
    ("a deposit released", "2030-01-01", Part::DepositRelease),
    ("a class released", "2030-01-01", Part::ClassRelease),
];

/// What one run asks then. None of it changes anything.
static TOGETHER: [Part; 3] = [Part::DueList, Part::List, Part::Bag];

/// The policy of the end of the session, whose first rule denies disposals until the end of 2029.
pub(crate) const DATED_POLICY: &str =
    "version = 2\n\n[callers]\nanna = \"archivist\"\n\n[[rule]]\neffect = \"deny\"\nrole = \"archivist\"\naction = \"dispose\"\ncollection = \"maps\"\nclass = \"*\"\nfirst = \"2024-03-01\"\nlast = \"2029-12-31\"\n\n[[rule]]\neffect = \"allow\"\nrole = \"archivist\"\naction = \"*\"\ncollection = \"*\"\nclass = \"*\"\n";

/// And the end of the session.
pub(crate) static END: [(&str, &str, Part); 5] = [
    (
        "a disposal denied on its day",
        "2029-12-31",
        Part::DeniedDisposal,
    ),
    ("a due list", "2030-01-02", Part::DueList),
    ("a disposal", "2030-01-02", Part::Disposal),
    ("another disposal", "2030-01-02", Part::DisposalAgain),
    ("an accession refused", "2030-01-02", Part::Taken),
];

/// What is stored before the disposals: three contents, of 54, 3 and 73 bytes, which both deposits have.
pub(crate) const KEPT: Stock = Stock {
    contents: 3,
    bytes: 130,
};

/// And after them.
pub(crate) const NOTHING: Stock = Stock {
    contents: 0,
    bytes: 0,
};

/// A new plain office.
pub(crate) fn plain(alloc: Global) -> Option<test_plain::Office> {
    let limits = Limits::new(10, 10)?;
    Some(test_plain::Office::create(alloc, limits))
}

/// A new office over tables in memory. Where memory was refused to a call, it is made once more.
pub(crate) fn over_tables(alloc: Global) -> Option<(Outcome, Office<MemStore>)> {
    let limits = Limits::new(10, 10)?;
    let (outcome, conn) = match Connection::open_in_memory(alloc) {
        Ok(conn) => (Outcome::Expected, conn),
        Err(_) => match Connection::open_in_memory(alloc) {
            Ok(conn) => (Outcome::Memory, conn),
            Err(_) => return None,
        },
    };
    match Office::create(conn, limits) {
        Ok(office) => Some((outcome, office)),
        Err((conn, TableFault::Memory | TableFault::Store)) => {
            match Office::create(conn, limits) {
                Ok(office) => Some((Outcome::Memory, office)),
                Err(_) => None,
            }
        }
        Err(_) => None,
    }
}

/// The office of the same tables, taken out and adopted again. Where memory was refused, once more.
pub(crate) fn adopt_again(office: Office<MemStore>) -> Option<(Outcome, Office<MemStore>)> {
    match Office::adopt(office.into_connection()) {
        Ok(office) => Some((Outcome::Expected, office)),
        Err((conn, TableFault::Memory | TableFault::Store)) => match Office::adopt(conn) {
            Ok(office) => Some((Outcome::Memory, office)),
            Err(_) => None,
        },
        Err(_) => None,
    }
}

/// What the office lists as due; where memory was refused, once more.
pub(crate) fn due(alloc: Global, office: &mut Office<MemStore>) -> Outcome {
    let Some(day) = Day::read("2030-01-02") else {
        return Outcome::Wrong;
    };
    match office.due_list(alloc, day, "anna") {
        Ok(numbers) => Outcome::expected_if(numbers.as_slice() == [1, 2].as_slice()),
        Err(TableFault::NotAnOffice | TableFault::OtherVersion) => Outcome::Wrong,
        Err(TableFault::Memory | TableFault::Store) => match office.due_list(alloc, day, "anna") {
            Ok(numbers) => Outcome::memory_if(numbers.as_slice() == [1, 2].as_slice()),
            Err(_) => Outcome::Wrong,
        },
    }
}

/// Reads the policy and installs it.
fn install_once<O: AnyOffice>(alloc: Global, office: &mut O, text: &str) -> Outcome {
    match read_policy(alloc, text) {
        Ok(policy) => match office.install(alloc, policy) {
            Ok(()) => Outcome::Expected,
            Err(_) => Outcome::Memory,
        },
        Err(fault) => Outcome::memory_if(fault == PolicyFault::Memory),
    }
}

/// Installs the policy; where memory was refused, once more, and then it has to be installed: what
/// is asked next is denied by an office that has none.
pub(crate) fn install_policy<O: AnyOffice>(alloc: Global, office: &mut O, text: &str) -> Outcome {
    match install_once(alloc, office, text) {
        Outcome::Memory => install_once(alloc, office, text).again(),
        outcome => outcome,
    }
}

/// A deposit of these bytes.
fn deposit(accession: &'static str, bag: &'static [u8]) -> Option<Request<'static>> {
    Some(Request::Deposit {
        description: described("maps", "y1", accession, "2024-02-29")?,
        bag,
    })
}

/// The class `y1`, with these years.
fn class(years: u8) -> Option<Request<'static>> {
    Some(Request::DefineClass {
        name: Name::read("y1")?,
        years: Years::new(years)?,
    })
}

/// A request that defines, deposits or holds.
fn request_to_change(part: Part) -> Option<Request<'static>> {
    match part {
        Part::Class => class(1),
        Part::Revision => class(2),
        Part::Collection => Some(Request::DefineCollection {
            name: Name::read("maps")?,
        }),
        Part::BadBag => deposit("A-1", b"BAGSET 1"),
        Part::DepositAgain => deposit("A-2", BAG),
        Part::Hold => Some(Request::HoldCollection {
            collection: Name::read("maps")?,
            matter: Matter::read("suit")?,
        }),
        Part::DepositHold => Some(Request::HoldDeposit {
            deposit: 1,
            matter: Matter::read("audit")?,
        }),
        Part::ClassHold => Some(Request::HoldClass {
            class: Name::read("y1")?,
            matter: Matter::read("claim")?,
        }),
        _ => deposit("A-1", BAG),
    }
}

/// The request.
fn request(part: Part) -> Option<Request<'static>> {
    match part {
        Part::List => Some(Request::List {
            collection: Some(Name::read("maps")?),
            class: None,
        }),
        Part::Record => Some(Request::Record { deposit: 1 }),
        Part::Holds => Some(Request::Holds { deposit: 1 }),
        Part::Bag => Some(Request::DownloadBag { deposit: 1 }),
        Part::File => Some(Request::DownloadFile {
            deposit: 1,
            path: b"data/a",
        }),
        Part::Audit => Some(Request::Audit { deposit: 1 }),
        Part::HeldDisposal | Part::DeniedDisposal | Part::Disposal => {
            Some(Request::Dispose { deposit: 1 })
        }
        Part::DisposalAgain => Some(Request::Dispose { deposit: 2 }),
        Part::Release => Some(Request::Release { hold: 1 }),
        Part::DepositRelease => Some(Request::Release { hold: 2 }),
        Part::ClassRelease => Some(Request::Release { hold: 3 }),
        Part::DueList => Some(Request::DueList),
        _ => request_to_change(part),
    }
}

/// Whether this is the record of the bag that was deposited, under that number and accession.
fn is_worked(record: &DepositRecord, number: u32, accession: &str) -> bool {
    record.number == number
        && record.description.accession.as_str() == accession
        && record.description.collection.as_str() == "maps"
        && record.description.class.as_str() == "y1"
        && (record.files, record.bytes) == (1, 3)
}

/// Whether an audit says what was worked out.
fn is_valid(report: &AuditReport) -> bool {
    match report {
        AuditReport::Valid(report) => report.files == 1 && report.bytes == 3,
        AuditReport::Invalid(_) => false,
    }
}

/// Whether these are the holds of deposit 1.
fn are_worked(holds: &[LiveHold]) -> bool {
    match holds {
        [first, second, third] => {
            (first.number, second.number, third.number) == (1, 2, 3)
                && first.matter.as_str() == "suit"
                && second.matter.as_str() == "audit"
                && third.matter.as_str() == "claim"
                && (first.on, second.on, third.on)
                    == (Scope::Collection, Scope::Deposit, Scope::Class)
        }
        _ => false,
    }
}

/// Whether the answer to a request that asks is the one that was worked out.
fn tells(part: Part, answer: &Answer) -> bool {
    match (part, answer) {
        (Part::List, Answer::List { deposits }) => match deposits.as_slice() {
            [first, second] => is_worked(first, 1, "A-1") && is_worked(second, 2, "A-2"),
            _ => false,
        },
        (Part::Record, Answer::Record(record)) => is_worked(record, 1, "A-1"),
        (Part::Holds, Answer::Holds { holds }) => are_worked(holds.as_slice()),
        (Part::Bag, Answer::Bag { bytes }) => bytes.as_slice() == BAG,
        (Part::File, Answer::File { bytes }) => bytes.as_slice() == b"abc".as_slice(),
        (Part::Audit, Answer::Audit { deposit, report }) => *deposit == 1 && is_valid(report),
        (Part::DueList, Answer::DueList { deposits, .. }) => {
            deposits.as_slice() == [1, 2].as_slice()
        }
        _ => false,
    }
}

/// Whether the answer is the one that was worked out.
fn fits(part: Part, answer: &Answer) -> bool {
    match (part, answer) {
        (Part::Class | Part::Revision, Answer::Class { name, .. }) => name.as_str() == "y1",
        (Part::Collection, Answer::Collection { name }) => name.as_str() == "maps",
        (Part::BadBag, Answer::Refused(Refusal::BadBag(fault))) => fault.as_str() == "S3",
        (Part::Deposit, Answer::Deposited { deposit }) => *deposit == 1,
        (Part::DepositAgain, Answer::Deposited { deposit }) => *deposit == 2,
        (Part::Hold, Answer::HoldPlaced { hold }) => *hold == 1,
        (Part::DepositHold, Answer::HoldPlaced { hold }) => *hold == 2,
        (Part::ClassHold, Answer::HoldPlaced { hold }) => *hold == 3,
        (Part::HeldDisposal, Answer::Refused(Refusal::Held(hold))) => *hold == 1,
        (Part::Release, Answer::HoldReleased { hold, .. }) => *hold == 1,
        (Part::DepositRelease, Answer::HoldReleased { hold, .. }) => *hold == 2,
        (Part::ClassRelease, Answer::HoldReleased { hold, .. }) => *hold == 3,
        (Part::DeniedDisposal, Answer::Refused(Refusal::DeniedByRule(rule))) => *rule == 1,
        (Part::Disposal, Answer::Destroyed { deposit, .. }) => *deposit == 1,
        (Part::DisposalAgain, Answer::Destroyed { deposit, .. }) => *deposit == 2,
        (Part::Taken, Answer::Refused(Refusal::Taken(number))) => *number == 1,
        _ => tells(part, answer),
    }
}

/// Asks; where memory was refused, once more, and then the answer has to fit: a request that was
/// refused has changed nothing. What the store lacked memory for it may tell as its own failure.
pub(crate) fn come_out<O: AnyOffice>(
    alloc: Global,
    office: &mut O,
    day: &str,
    part: Part,
) -> Outcome {
    let (Some(day), Some(request)) = (Day::read(day), request(part)) else {
        return Outcome::Wrong;
    };
    match office.step(alloc, day, "anna", &request) {
        Answer::Refused(Refusal::Memory | Refusal::Store) => {
            Outcome::memory_if(fits(part, &office.step(alloc, day, "anna", &request)))
        }
        answer => Outcome::expected_if(fits(part, &answer)),
    }
}

/// How an answer came out.
fn outcome_of(part: Part, answer: &Answer) -> Outcome {
    match answer {
        Answer::Refused(Refusal::Memory | Refusal::Store) => Outcome::Memory,
        answer => Outcome::expected_if(fits(part, answer)),
    }
}

/// The requests of one run.
fn items(alloc: Global) -> Result<Vec<(Day, &'static str, Request<'static>)>, AllocError> {
    let mut items = Vec::new(alloc);
    for part in &TOGETHER {
        if let (Some(day), Some(request)) = (Day::read("2030-01-02"), request(*part)) {
            items.push((day, "anna", request))?;
        }
    }
    Ok(items)
}

/// Asks all of them in one run.
fn run_together<O: AnyOffice>(alloc: Global, office: &mut O) -> Result<Outcome, AllocError> {
    let items = items(alloc)?;
    let answers = office.run(alloc, items.as_slice())?;
    let mut outcome = Outcome::expected_if(answers.len() == TOGETHER.len());
    for (part, answer) in TOGETHER.iter().zip(answers.iter()) {
        outcome = outcome.and(outcome_of(*part, answer));
    }
    Ok(outcome)
}

/// Asks them in one run; where memory was refused, once more, and then all answers have to fit.
pub(crate) fn together<O: AnyOffice>(alloc: Global, office: &mut O) -> Outcome {
    match run_together(alloc, office) {
        Ok(Outcome::Expected) => Outcome::Expected,
        Ok(Outcome::Wrong) => Outcome::Wrong,
        _ => match run_together(alloc, office) {
            Ok(outcome) => outcome.again(),
            Err(_) => Outcome::Wrong,
        },
    }
}

/// Counts the contents of the office; where memory was refused, once more.
pub(crate) fn count<O: AnyOffice>(alloc: Global, office: &mut O, kept: Stock) -> Outcome {
    match office.stock(alloc) {
        Ok(found) => Outcome::expected_if(found == kept),
        Err(TableFault::NotAnOffice | TableFault::OtherVersion) => Outcome::Wrong,
        Err(TableFault::Memory | TableFault::Store) => match office.stock(alloc) {
            Ok(found) => Outcome::memory_if(found == kept),
            Err(_) => Outcome::Wrong,
        },
    }
}
