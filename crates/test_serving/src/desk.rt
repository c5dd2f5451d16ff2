//! Requests as bytes, put to an office, and whether they are answered as was worked out.

use http_desk::{Counted, DeskFault, FailAt, Portion, serve_one};
use office_core::Day;
use office_engine::Office;
use sqlite::Alter;
use std::alloc::Global;
use std::test::Fail;

/// How the bytes of a request come, and how those of its answer are taken: in which portions, and
/// by how many calls until the device fails.
#[derive(Clone, Copy)]
pub(crate) struct Devices {
    pub(crate) portion: Portion,
    pub(crate) reads: u64,
    pub(crate) writes: u64,
}

impl Devices {
    /// Devices that don't fail.
    pub(crate) fn whole(portion: Portion) -> Devices {
        Devices {
            portion,
            reads: u64::MAX,
            writes: u64::MAX,
        }
    }

    /// Devices of one byte a call. The reader fails from its call after the request's last byte
    /// on, the writer from that call on.
    pub(crate) fn narrow(request: &[u8], writes: u64) -> Devices {
        Devices {
            portion: Portion::OneByte,
            reads: request.len() as u64,
            writes,
        }
    }
}

/// What serving one request ends with, and what is written.
pub(crate) fn serve_request<S: Alter>(
    alloc: Global,
    office: &mut Office<S>,
    day: &str,
    request: &[u8],
    devices: Devices,
) -> Result<(Result<(), DeskFault>, Vec<u8>), Fail> {
    let day = Day::read(day).ok_or("day")?;
    let mut reader = Counted::new(FailAt::new(request, devices.portion, devices.reads));
    let mut writer = Counted::new(FailAt::new(Vec::new(alloc), devices.portion, devices.writes));
    let ended = serve_one(alloc, office, day, &mut reader, &mut writer);
    Ok((ended, writer.into_device().memory))
}

/// Fails where something else was written than was worked out.
pub(crate) fn compare(alloc: Global, written: &[u8], wanted: &[u8]) -> Result<(), Fail> {
    if written == wanted {
        return Ok(());
    }
    let text = String::from_utf8_lossy(alloc, written)?;
    Err(Fail::new(format_args!("this was written, and not what was worked out: {text}")))
}

/// Puts a request of 2024-03-01 to the office. Fails where that ends otherwise, or something else
/// is written.
pub(crate) fn put<S: Alter>(
    alloc: Global,
    office: &mut Office<S>,
    request: &[u8],
    devices: Devices,
    ends: Result<(), DeskFault>,
    answer: &[u8],
) -> Result<(), Fail> {
    let (ended, written) = serve_request(alloc, office, "2024-03-01", request, devices)?;
    compare(alloc, &written, answer)?;
    if ended != ends {
        return Err("a request ended otherwise".into());
    }
    Ok(())
}
