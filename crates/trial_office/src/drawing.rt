//! Requests drawn by a seed.

use crate::office::described;
use crate::texts::{
    ACCESSIONS, BAGS, CALLERS, CLASSES, CLOSING_DAYS, COLLECTIONS, DAYS, MATTERS, PATHS, POLICIES,
};
use office_core::{Day, Matter, Name, Request, Years};
use rand::RngExt;
use rand::seq::IndexedRandom;
use rand_pcg::Pcg32;

/// What is asked, without its parts.
#[derive(Clone, Copy)]
enum Kind {
    DefineClass,
    DefineCollection,
    Deposit,
    List,
    Record,
    Holds,
    DownloadBag,
    DownloadFile,
    Audit,
    HoldDeposit,
    HoldCollection,
    HoldClass,
    Release,
    Dispose,
    DueList,
}

/// Each kind as often as it is to come: most deposits are refused, so they come more often.
static KINDS: [Kind; 29] = [
    Kind::DefineClass,
    Kind::DefineClass,
    Kind::DefineClass,
    Kind::DefineCollection,
    Kind::DefineCollection,
    Kind::Deposit,
    Kind::Deposit,
    Kind::Deposit,
    Kind::Deposit,
    Kind::Deposit,
    Kind::List,
    Kind::Record,
    Kind::Record,
    Kind::Holds,
    Kind::DownloadBag,
    Kind::DownloadFile,
    Kind::Audit,
    Kind::HoldDeposit,
    Kind::HoldCollection,
    Kind::HoldCollection,
    Kind::HoldClass,
    Kind::HoldClass,
    Kind::Release,
    Kind::Release,
    Kind::Release,
    Kind::Dispose,
    Kind::Dispose,
    Kind::Dispose,
    Kind::DueList,
];

/// What is put to both offices.
#[derive(Drop)]
pub(crate) struct Drawn {
    /// The text of a policy that is installed before the request, where one is.
    pub(crate) policy: Option<&'static str>,
    pub(crate) day: Day,
    pub(crate) caller: &'static str,
    pub(crate) request: Request<'static>,
}

/// Draws what is put to the offices, the same for the same seed.
#[derive(Drop)]
pub(crate) struct Draws {
    generator: Pcg32,
}

impl Draws {
    pub(crate) fn new(seed: u64) -> Draws {
        Draws {
            generator: Pcg32::new(seed, 0),
        }
    }

    fn word(&mut self, words: &'static [&'static str]) -> Option<&'static str> {
        words.choose(&mut self.generator).copied()
    }

    fn name(&mut self, words: &'static [&'static str]) -> Option<Name<'static>> {
        Name::read(self.word(words)?)
    }

    /// A name, or none.
    fn name_or_none(&mut self, words: &'static [&'static str]) -> Option<Option<Name<'static>>> {
        if self.number() < 3 {
            return Some(None);
        }
        Some(Some(self.name(words)?))
    }

    fn day(&mut self) -> Option<Day> {
        Day::read(self.word(&DAYS)?)
    }

    fn matter(&mut self) -> Option<Matter<'static>> {
        Matter::read(self.word(&MATTERS)?)
    }

    /// The number of a deposit or a hold, or one that is none.
    fn number(&mut self) -> u32 {
        self.generator.random_range(0..8)
    }

    fn years(&mut self) -> Option<Years> {
        match self.number() {
            0 => Some(Years::permanent()),
            1 => Years::new(200),
            2 | 3 => Years::new(0),
            4 | 5 => Years::new(1),
            _ => Years::new(10),
        }
    }

    fn deposit(&mut self) -> Option<Request<'static>> {
        Some(Request::Deposit {
            description: described(
                self.word(&COLLECTIONS)?,
                self.word(&CLASSES)?,
                self.word(&ACCESSIONS)?,
                self.word(&CLOSING_DAYS)?,
            )?,
            bag: BAGS.choose(&mut self.generator).copied()?,
        })
    }

    fn definition(&mut self, kind: Kind) -> Option<Request<'static>> {
        match kind {
            Kind::DefineClass => Some(Request::DefineClass {
                name: self.name(&CLASSES)?,
                years: self.years()?,
            }),
            Kind::DefineCollection => Some(Request::DefineCollection {
                name: self.name(&COLLECTIONS)?,
            }),
            Kind::HoldDeposit => Some(Request::HoldDeposit {
                deposit: self.number(),
                matter: self.matter()?,
            }),
            Kind::HoldCollection => Some(Request::HoldCollection {
                collection: self.name(&COLLECTIONS)?,
                matter: self.matter()?,
            }),
            Kind::HoldClass => Some(Request::HoldClass {
                class: self.name(&CLASSES)?,
                matter: self.matter()?,
            }),
            _ => self.deposit(),
        }
    }

    fn request(&mut self, kind: Kind) -> Option<Request<'static>> {
        let number = self.number();
        match kind {
            Kind::List => Some(Request::List {
                collection: self.name_or_none(&COLLECTIONS)?,
                class: self.name_or_none(&CLASSES)?,
            }),
            Kind::Record => Some(Request::Record { deposit: number }),
            Kind::Holds => Some(Request::Holds { deposit: number }),
            Kind::DownloadBag => Some(Request::DownloadBag { deposit: number }),
            Kind::DownloadFile => Some(Request::DownloadFile {
                deposit: number,
                path: self.word(&PATHS)?.as_bytes(),
            }),
            Kind::Audit => Some(Request::Audit { deposit: number }),
            Kind::Release => Some(Request::Release { hold: number }),
            Kind::Dispose => Some(Request::Dispose { deposit: number }),
            Kind::DueList => Some(Request::DueList),
            _ => self.definition(kind),
        }
    }

    /// The text of a policy, now and then.
    fn policy(&mut self) -> Option<Option<&'static str>> {
        match self.number() {
            1 => Some(Some(self.word(&POLICIES)?)),
            _ => Some(None),
        }
    }

    /// What is put to the offices next.
    pub(crate) fn next(&mut self) -> Option<Drawn> {
        let kind = *KINDS.choose(&mut self.generator)?;
        Some(Drawn {
            policy: self.policy()?,
            day: self.day()?,
            caller: self.word(&CALLERS)?,
            request: self.request(kind)?,
        })
    }
}
