//! Answers in words.

use office_core::{
    Answer, AuditReport, DepositRecord, Due, LiveHold, Refusal, Scope, Subject, Years,
};
use std::alloc::{AllocError, Global};

/// The day from which something may be destroyed.
fn due_words(alloc: Global, due: &Due) -> Result<String, AllocError> {
    match due {
        Due::On(date) => format!(in alloc; "{date}"),
        Due::Never => format!(in alloc; "never"),
    }
}

/// How long a class keeps.
fn years_words(alloc: Global, years: Years) -> Result<String, AllocError> {
    match years.count() {
        Some(count) => format!(in alloc; "{count}"),
        None => format!(in alloc; "permanent"),
    }
}

fn subject_word(subject: Subject) -> &'static str {
    match subject {
        Subject::Class => "class",
        Subject::Collection => "collection",
        Subject::Deposit => "deposit",
        Subject::Hold => "hold",
    }
}

fn refusal_words(alloc: Global, refusal: &Refusal) -> Result<String, AllocError> {
    match refusal {
        Refusal::NoSuch(subject) => {
            let subject = subject_word(*subject);
            format!(in alloc; "NoSuch {subject}")
        }
        Refusal::DeniedByRule(rule) => format!(in alloc; "Denied rule {rule}"),
        Refusal::DeniedByDefault => format!(in alloc; "Denied default"),
        Refusal::Gone(day) => format!(in alloc; "Gone {day}"),
        Refusal::Held(hold) => format!(in alloc; "Held {hold}"),
        Refusal::NotDue(due) => {
            let due = due_words(alloc, due)?;
            format!(in alloc; "NotDue {due}")
        }
        Refusal::Released(day) => format!(in alloc; "Released {day}"),
        Refusal::Taken(number) => format!(in alloc; "Taken {number}"),
        Refusal::ClosedAhead => format!(in alloc; "ClosedAhead"),
        Refusal::Full => format!(in alloc; "Full"),
        Refusal::NoFile => format!(in alloc; "NoFile"),
        Refusal::BadBag(fault) => {
            let fault = fault.as_str();
            format!(in alloc; "BadBag {fault}")
        }
        Refusal::Memory => format!(in alloc; "Memory"),
        Refusal::Store => format!(in alloc; "Store"),
    }
}

fn record_words(alloc: Global, record: &DepositRecord) -> Result<String, AllocError> {
    let number = record.number;
    let accession = record.description.accession.as_str();
    let collection = record.description.collection.as_str();
    let class = record.description.class.as_str();
    let closed = record.description.closed;
    let deposited = record.deposited;
    let files = record.files;
    let bytes = record.bytes;
    let due = due_words(alloc, &record.due)?;
    let names = format!(in alloc; "{number} {accession} {collection} {class}")?;
    let days = format!(in alloc; "closed {closed} deposited {deposited} due {due}")?;
    format!(in alloc; "{names} {days} files {files} bytes {bytes}")
}

fn hold_words(alloc: Global, hold: &LiveHold) -> Result<String, AllocError> {
    let number = hold.number;
    let placed = hold.placed;
    let matter = hold.matter.as_str();
    let on = match hold.on {
        Scope::Deposit => "deposit",
        Scope::Collection => "collection",
        Scope::Class => "class",
    };
    format!(in alloc; " {number} on {on} placed {placed} for {matter};")
}

fn audit_words(alloc: Global, report: &AuditReport) -> Result<String, AllocError> {
    match report {
        AuditReport::Valid(report) => {
            let version = report.version;
            let files = report.files;
            let bytes = report.bytes;
            let manifests = report.manifests;
            format!(in alloc; "valid {version} files {files} bytes {bytes} manifests {manifests}")
        }
        AuditReport::Invalid(fault) => {
            let fault = fault.as_str();
            format!(in alloc; "invalid {fault}")
        }
    }
}

fn numbers_words(alloc: Global, numbers: &[u32]) -> Result<String, AllocError> {
    let mut text = format!(in alloc; "")?;
    for number in numbers {
        let number = *number;
        let one = format!(in alloc; " {number}")?;
        text.push_str(one.as_str())?;
    }
    Ok(text)
}

/// Bytes that are a text, after the word for them.
fn bytes_words(alloc: Global, word: &str, bytes: &[u8]) -> Result<String, AllocError> {
    match str::from_utf8(bytes) {
        Ok(text) => format!(in alloc; "{word} {text}"),
        Err(_) => format!(in alloc; "{word} of other bytes"),
    }
}

/// What a list of deposits says.
fn deposits_words(alloc: Global, deposits: &[DepositRecord]) -> Result<String, AllocError> {
    let mut text = String::from_str(alloc, "list:")?;
    for record in deposits {
        let number = record.number;
        let one = format!(in alloc; " {number}")?;
        text.push_str(one.as_str())?;
    }
    Ok(text)
}

/// What a list of holds says.
fn holds_words(alloc: Global, holds: &[LiveHold]) -> Result<String, AllocError> {
    let mut text = String::from_str(alloc, "holds:")?;
    for hold in holds {
        let one = hold_words(alloc, hold)?;
        text.push_str(one.as_str())?;
    }
    Ok(text)
}

/// What a list says.
fn list_words(alloc: Global, answer: &Answer) -> Result<String, AllocError> {
    match answer {
        Answer::List { deposits } => deposits_words(alloc, deposits.as_slice()),
        Answer::Holds { holds } => holds_words(alloc, holds.as_slice()),
        Answer::DueList { day, deposits } => {
            let numbers = numbers_words(alloc, deposits.as_slice())?;
            format!(in alloc; "due on {day}:{numbers}")
        }
        _ => String::from_str(alloc, "another answer"),
    }
}

/// An answer in words.
pub fn words(alloc: Global, answer: &Answer) -> Result<String, AllocError> {
    match answer {
        Answer::Class { name, years } => {
            let name = name.as_str();
            let years = years_words(alloc, *years)?;
            format!(in alloc; "class {name} {years}")
        }
        Answer::Collection { name } => {
            let name = name.as_str();
            format!(in alloc; "collection {name}")
        }
        Answer::Deposited { deposit } => format!(in alloc; "deposit {deposit}"),
        Answer::Record(record) => {
            let record = record_words(alloc, record)?;
            format!(in alloc; "record {record}")
        }
        Answer::File { bytes } => bytes_words(alloc, "file", bytes.as_slice()),
        Answer::Bag { bytes } => bytes_words(alloc, "bag", bytes.as_slice()),
        Answer::Audit { deposit, report } => {
            let report = audit_words(alloc, report)?;
            format!(in alloc; "audit {deposit} {report}")
        }
        Answer::HoldPlaced { hold } => format!(in alloc; "hold {hold}"),
        Answer::HoldReleased { hold, day } => format!(in alloc; "released {hold} {day}"),
        Answer::Destroyed { deposit, day } => format!(in alloc; "destroyed {deposit} {day}"),
        Answer::Refused(refusal) => refusal_words(alloc, refusal),
        _ => list_words(alloc, answer),
    }
}
