//! Why a request isn't heard.

use desk_devices::FillFault;
use desk_forms::{BodyFault, QueryFault};
use desk_heads::{HeadFault, HeadRefusal};
use desk_routes::DeskRefusal;
use std::alloc::AllocError;

/// Why a request isn't heard.
#[derive(Clone, Copy, Debug, PartialEq, Eq)]
pub enum HeardFault {
    /// The desk refuses it.
    Refused(DeskRefusal),
    /// The reader failed before the bytes decided.
    Read,
    /// There was no memory.
    Memory,
}

/// Why bytes that have come are not what is asked.
#[derive(Clone, Copy, Debug, PartialEq, Eq)]
pub(crate) enum JudgingFault {
    Refused(DeskRefusal),
    Memory,
}

impl From<AllocError> for JudgingFault {
    ghost use Rattle.std.specs.Prelude.{◌≡◌};
    ghost use Rattle.desk_hearing.specs.declared.fault.JudgingFault.{JudgingFault};

    ghost from_gives = { λ _ fault. fault ≡ JudgingFault.Memory };

    fn from(_: AllocError) -> JudgingFault {
        JudgingFault::Memory
    }
}

impl From<DeskRefusal> for JudgingFault {
    ghost use Rattle.std.specs.Prelude.{◌≡◌};
    ghost use Rattle.desk_hearing.specs.declared.fault.JudgingFault.{JudgingFault};

    ghost from_gives = { λ refusal fault. fault ≡ JudgingFault.Refused refusal };

    fn from(refusal: DeskRefusal) -> JudgingFault {
        JudgingFault::Refused(refusal)
    }
}

impl From<HeadRefusal> for JudgingFault {
    ghost use Rattle.std.specs.Prelude.{◌≡◌};
    ghost use Rattle.desk_hearing.specs.Hearing.{refusal_of_head};
    ghost use Rattle.desk_hearing.specs.declared.fault.JudgingFault.{JudgingFault};

    ghost from_gives = { λ refusal fault. fault ≡ JudgingFault.Refused (refusal_of_head refusal) };

    fn from(refusal: HeadRefusal) -> JudgingFault {
        JudgingFault::Refused(match refusal {
            HeadRefusal::BadHead => DeskRefusal::BadHead,
            HeadRefusal::Chunked => DeskRefusal::Chunked,
            HeadRefusal::BadLength => DeskRefusal::BadLength,
            HeadRefusal::TooLarge => DeskRefusal::TooLarge,
            HeadRefusal::TwoCallers => DeskRefusal::TwoCallers,
        })
    }
}

impl From<QueryFault> for JudgingFault {
    ghost use Rattle.desk_hearing.specs.Faults.{fault_of_query};
    ghost use Rattle.std.specs.Prelude.{◌≡◌};

    ghost from_gives = { λ fault other. other ≡ fault_of_query fault };

    fn from(fault: QueryFault) -> JudgingFault {
        match fault {
            QueryFault::BadQuery => JudgingFault::Refused(DeskRefusal::BadQuery),
            QueryFault::Memory => JudgingFault::Memory,
        }
    }
}

impl From<BodyFault> for JudgingFault {
    ghost use Rattle.desk_hearing.specs.Faults.{fault_of_body};
    ghost use Rattle.std.specs.Prelude.{◌≡◌};

    ghost from_gives = { λ fault other. other ≡ fault_of_body fault };

    fn from(fault: BodyFault) -> JudgingFault {
        match fault {
            BodyFault::BadBody => JudgingFault::Refused(DeskRefusal::BadBody),
            BodyFault::Memory => JudgingFault::Memory,
        }
    }
}

impl From<JudgingFault> for HeardFault {
    ghost use Rattle.desk_hearing.specs.Faults.{fault_of_judging};
    ghost use Rattle.std.specs.Prelude.{◌≡◌};

    ghost from_gives = { λ fault other. other ≡ fault_of_judging fault };

    fn from(fault: JudgingFault) -> HeardFault {
        match fault {
            JudgingFault::Refused(refusal) => HeardFault::Refused(refusal),
            JudgingFault::Memory => HeardFault::Memory,
        }
    }
}

impl From<HeadFault> for HeardFault {
    ghost use Rattle.desk_hearing.specs.Faults.{fault_of_head};
    ghost use Rattle.std.specs.Prelude.{◌≡◌};

    ghost from_gives = { λ fault other. other ≡ fault_of_head fault };

    fn from(fault: HeadFault) -> HeardFault {
        match fault {
            HeadFault::TooLarge => HeardFault::Refused(DeskRefusal::TooLarge),
            HeadFault::Truncated => HeardFault::Refused(DeskRefusal::Truncated),
            HeadFault::Read => HeardFault::Read,
            HeadFault::Memory => HeardFault::Memory,
        }
    }
}

impl From<FillFault> for HeardFault {
    ghost use Rattle.desk_hearing.specs.Faults.{fault_of_fill};
    ghost use Rattle.std.specs.Prelude.{◌≡◌};

    ghost from_gives = { λ fault other. other ≡ fault_of_fill fault };

    fn from(fault: FillFault) -> HeardFault {
        match fault {
            FillFault::Truncated => HeardFault::Refused(DeskRefusal::Truncated),
            FillFault::Read => HeardFault::Read,
            FillFault::Memory => HeardFault::Memory,
        }
    }
}

impl From<AllocError> for HeardFault {
    ghost use Rattle.std.specs.Prelude.{◌≡◌};
    ghost use Rattle.desk_hearing.specs.declared.fault.HeardFault.{HeardFault};

    ghost from_gives = { λ _ fault. fault ≡ HeardFault.Memory };

    fn from(_: AllocError) -> HeardFault {
        HeardFault::Memory
    }
}
