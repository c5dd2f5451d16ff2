//! How many pages of a file are kept in memory: as many as it has, up to a limit.

ghost use Rattle.std.specs.Prelude.{◌≡◌, ◌≤◌, ◌<◌, ◌*◌, IfOk, IfSome, length};
ghost use Rattle.store_file.specs.Pages.{cached_pages, page_size, page_size_field};

use std::io::Read;
use std::{fs, io};

/// The most bytes of a file's pages that are kept in memory: 128 MiB. Opening takes the memory of all that
/// are to be kept, so a small file gets fewer.
const CACHED_BYTES: u64 = 134_217_728;

/// How many more are kept than the file has as it is opened, for what is written after: 2,000 pages of 4 KiB.
const SPARE_BYTES: u64 = 8_192_000;

/// The page size of each file that is made here.
const PAGE_BYTES: u64 = 4_096;

/// The page size of a file whose header has this number in its field for it. One that means no page size
/// counts as that of the files that are made here.
fn page_bytes(field: u16) -> u64
    ensures { result ≡ page_size field }
{
    match field {
        1 => 65_536,
        0..512 => PAGE_BYTES,
        _ => u64::from(field),
    }
}

/// How many pages of that size are kept of a file of this length: at most 128 MiB of them.
fn cached_pages(bytes: u64, page_bytes: u64) -> usize
    requires { 0 < page_bytes }
    ensures exact { result ≡ cached_pages bytes page_bytes }
    ensures most { result * page_bytes ≤ 134217728 }
{
    let kept = bytes.saturating_add(SPARE_BYTES).min(CACHED_BYTES);
    (kept / page_bytes) as usize
}

/// The field for the page size in the header of a file.
fn page_size_field(header: &[u8; 18]) -> u16
    ensures { result ≡ page_size_field header.now }
{
    u16::from(header[16]) * 256 + u16::from(header[17])
}

/// How many pages are kept of a file of this length, which the reader gives from its start.
fn pages_read<R: Read>(bytes: u64, reader: &mut R) -> io::Result<usize>
    // Where it is known what the reader has left, its start is the header.
    ensures header { IfOk result (λ pages. IfSome (R.remaining reader.old) (λ given.
        18 ≤ length given × (pages ≡ cached_pages bytes (page_size (page_size_field given))))) }
{
    let mut header = [0u8; 18];
    reader.read_exact(&mut header)?;
    Ok(cached_pages(bytes, page_bytes(page_size_field(&header))))
}

/// How many pages are kept of a file of this length at the path. One without a header gets as many as one that is
/// made here.
fn pages_at(rt: &HostRuntime, path: &str, bytes: u64) -> usize {
    let Ok(mut file) = fs::open(rt, path) else {
        return cached_pages(bytes, PAGE_BYTES);
    };
    match pages_read(bytes, &mut file) {
        Ok(pages) => pages,
        Err(_) => cached_pages(bytes, PAGE_BYTES),
    }
}

/// How many pages are kept of the file at the path, as it is found.
pub fn pages_of(rt: &HostRuntime, path: &str) -> usize {
    match fs::metadata(rt, path) {
        Ok(found) if found.is_file() => pages_at(rt, path, found.len()),
        _ => cached_pages(0, PAGE_BYTES),
    }
}
