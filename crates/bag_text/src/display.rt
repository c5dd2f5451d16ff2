//! How versions and faults are printed.

ghost use Rattle.std.specs.Prelude.{Some};
ghost use Rattle.bag_text.specs.Declaration.{version_text};
ghost use Rattle.bag_text.specs.FaultTexts.{path_fault_text, declaration_fault_text, line_fault_text, info_fault_text, set_fault_text};

use crate::bag_info::InfoFault;
use crate::declaration::{DeclFault, Version};
use crate::listing::LineFault;
use crate::path::PathFault;
use crate::set_fault::SetFault;
use std::error::Error;
use std::fmt;

impl fmt::Display for Version {
    ghost output = { λ version. Some (version_text version) };

    fn fmt<W: fmt::Write>(&self, f: &mut fmt::Formatter<W>) -> fmt::Result {
        f.write_str(match self {
            Version::V1_0 => "1.0",
            Version::V0_97 => "0.97",
        })
    }
}

impl fmt::Display for PathFault {
    ghost output = { λ fault. Some (path_fault_text fault) };

    fn fmt<W: fmt::Write>(&self, f: &mut fmt::Formatter<W>) -> fmt::Result {
        f.write_str(match self {
            PathFault::Empty => "P1",
            PathFault::TooLong => "P2",
            PathFault::EmptySegment => "P3",
            PathFault::DotSegment => "P4",
            PathFault::Nul => "P5",
        })
    }
}

impl Error for PathFault {}

impl fmt::Display for DeclFault {
    ghost output = { λ fault. Some (declaration_fault_text fault) };

    fn fmt<W: fmt::Write>(&self, f: &mut fmt::Formatter<W>) -> fmt::Result {
        f.write_str(match self {
            DeclFault::NotUtf8 => "V1",
            DeclFault::ByteOrderMark => "V2",
            DeclFault::NotTwoLines => "V3",
            DeclFault::BadVersionLine => "V4",
            DeclFault::UnsupportedVersion => "V5",
            DeclFault::BadEncodingLine => "V6",
            DeclFault::UnsupportedEncoding => "V7",
        })
    }
}

impl Error for DeclFault {}

impl fmt::Display for LineFault {
    ghost output = { λ fault. Some (line_fault_text fault) };

    fn fmt<W: fmt::Write>(&self, f: &mut fmt::Formatter<W>) -> fmt::Result {
        match self {
            LineFault::NotUtf8 => f.write_str("L1"),
            LineFault::ByteOrderMark => f.write_str("L2"),
            LineFault::BadChecksum(line) => write!(f, "L3 {line}"),
            LineFault::NoPath(line) => write!(f, "L4 {line}"),
            LineFault::BadPath(line) => write!(f, "L5 {line}"),
            LineFault::ListedTwice(line) => write!(f, "L6 {line}"),
            LineFault::Memory => f.write_str("L7"),
        }
    }
}

impl Error for LineFault {}

impl fmt::Display for InfoFault {
    ghost output = { λ fault. Some (info_fault_text fault) };

    fn fmt<W: fmt::Write>(&self, f: &mut fmt::Formatter<W>) -> fmt::Result {
        match self {
            InfoFault::NotUtf8 => f.write_str("I1"),
            InfoFault::ByteOrderMark => f.write_str("I2"),
            InfoFault::NoColon(line) => write!(f, "I3 {line}"),
            InfoFault::EmptyLabel(line) => write!(f, "I4 {line}"),
            InfoFault::StrayContinuation(line) => write!(f, "I5 {line}"),
            InfoFault::Memory => f.write_str("I6"),
        }
    }
}

impl Error for InfoFault {}

impl fmt::Display for SetFault {
    ghost output = { λ fault. Some (set_fault_text fault) };

    fn fmt<W: fmt::Write>(&self, f: &mut fmt::Formatter<W>) -> fmt::Result {
        match self {
            SetFault::BadOpening => f.write_str("S1"),
            SetFault::BadEntry(offset) => write!(f, "S2 {offset}"),
            SetFault::Truncated => f.write_str("S3"),
            SetFault::OutOfOrder(offset) => write!(f, "S4 {offset}"),
            SetFault::BadPath(offset) => write!(f, "S5 {offset}"),
            SetFault::TooManyFiles => f.write_str("S6"),
            SetFault::TrailingBytes => f.write_str("S7"),
            SetFault::PathClash => f.write_str("S8"),
            SetFault::Memory => f.write_str("S9"),
        }
    }
}

impl Error for SetFault {}
