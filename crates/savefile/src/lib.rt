// The libpcap savefile format: header, records, and refusals 40 to 43 of document 02's A1. Nothing here knows of filters.
#![tactic(auto)]

ghost use Rattle.std.specs.Prelude.{◌≡◌, ◌+◌, ◌≤◌, length};
ghost use Rattle.refusals.specs.Refusal.{told};
ghost use Rattle.savefile.specs.Savefile.{number_at, is_magic, magic_of, header_in, header_of, next_of, file_walk, walked_of, opened_of};

use refusals::{Reason, Refusal};

// The byte order of a file's headers.
#[derive(Clone, Copy, PartialEq, Eq)]
pub enum ByteOrder {
    Big,
    Little,
}

// What a file's header says: the byte order of its headers, and the link that it picks.
#[derive(Clone, Copy, PartialEq, Eq)]
pub struct Header {
    pub order: ByteOrder,
    pub link: u8,
}

// What a record's header says: how many bytes were captured, and how many the frame had.
#[derive(Clone, Copy, PartialEq, Eq)]
pub struct Record {
    pub captured: u32,
    pub original: u32,
}

// The 32-bit number at `at` in the file's byte order.
fn number_at(file: &[u8], at: usize, order: ByteOrder) -> u32
    requires { at + 4 ≤ length file.now }
    ensures { result ≡ number_at order file.now at }
{
    let bytes = [file[at], file[at + 1], file[at + 2], file[at + 3]];
    match order {
        ByteOrder::Big => u32::from_be_bytes(bytes),
        ByteOrder::Little => u32::from_le_bytes(bytes),
    }
}

// Of microseconds, or of nanoseconds.
fn is_magic(x: u32) -> bool
    ensures { result ≡ is_magic x }
{
    x == 0xa1b2c3d4 || x == 0xa1b23c4d
}

fn magic_of(file: &[u8]) -> Option<ByteOrder>
    requires { 4 ≤ length file.now }
    ensures { result ≡ magic_of file.now }
{
    if is_magic(number_at(file, 0, ByteOrder::Big)) {
        Some(ByteOrder::Big)
    } else if is_magic(number_at(file, 0, ByteOrder::Little)) {
        Some(ByteOrder::Little)
    } else {
        None
    }
}

// Past the magic: the rest of the header, and the link type in it.
fn header_in(file: &[u8], order: ByteOrder) -> Result<Header, Refusal>
    ensures { told result ≡ header_in order file.now }
{
    if file.len() < 24 {
        return Err(Reason::FileEnds.at(0));
    }
    let link = match number_at(file, 20, order) {
        1 => 0,
        101 => 1,
        113 => 2,
        _ => return Err(Reason::OtherLinkType.at(20)),
    };
    Ok(Header { order, link })
}

// The header alone: magic, then link type.
pub fn open_header(file: &[u8]) -> Result<Header, Refusal>
    ensures { told result ≡ header_of file.now }
{
    if file.len() < 4 {
        return Err(Reason::FileEnds.at(0));
    }
    let order = magic_of(file).ok_or(Reason::UnknownMagic.at(0))?;
    header_in(file, order)
}

// The record that starts at `at`; or 42 where the file ends inside it, 43 where more than 16,384 bytes were captured.
pub fn next_of(file: &[u8], at: usize, order: ByteOrder) -> Result<Record, Refusal>
    ensures { told result ≡ next_of order file.now at }
{
    let n = file.len();
    if n < at || n - at < 16 {
        return Err(Reason::FileEnds.at(at));
    }
    let captured = number_at(file, at + 8, order);
    if captured > 16384 {
        return Err(Reason::LongRecord.at(at));
    }
    if n - at - 16 < captured as usize {
        return Err(Reason::FileEnds.at(at));
    }
    let original = number_at(file, at + 12, order);
    Ok(Record { captured, original })
}

// The records, up to the first fault. A `while`: how long a record is decides where the next one starts.
fn open_records(file: &[u8], header: Header) -> Result<Header, Refusal>
    ensures { told result ≡ walked_of (file_walk header.order file.now) header }
{
    let mut at: usize = 24;
    while at < file.len() {
        let record = next_of(file, at, header.order)?;
        at += 16 + record.captured as usize;
    }
    Ok(header)
}

// The whole file, looked through in its order.
pub fn open_file(file: &[u8]) -> Result<Header, Refusal>
    ensures { told result ≡ opened_of file.now }
{
    let header = open_header(file)?;
    open_records(file, header)
}
