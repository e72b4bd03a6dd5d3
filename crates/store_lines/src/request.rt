//! Reading the request of a line.

ghost use Rattle.std.specs.Prelude.{◌≡◌};
ghost use Rattle.store_lines.specs.Requests.{entries_at, fetch_at, fetch_range_at, file_as_at, request_at, request_of_kind};
ghost use Rattle.store_lines.specs.inner.Requests.{AsksFor};

use crate::answer::without_end;
use crate::parsing::{address, number_and_address};
use crate::questions::{question_of_word, session_question};
use edge::{LineRead, number, split_at, three_numbers, two_numbers};
use std::marker::Model;
use store_core::{Address, Command, Question, TenantId, UploadId};

/// The maximum length in bytes, with its newline, of a line with a request that a script does not have.
pub(crate) const MAX_REQUEST: usize = 200;

/// `len` bytes starting at `from`.
#[derive(Clone, Copy, Debug, PartialEq, Eq)]
pub(crate) struct Range {
    pub from: u64,
    pub len: u64,
}

/// Entries of the journal: those from number `from` on, the first being 0, and at most `count` of them if that is given.
#[derive(Clone, Copy, Debug, PartialEq, Eq)]
pub struct EntryRange {
    pub from: u64,
    pub count: Option<u64>,
}

/// The bytes of an object that a tenant holds, or those of a range.
#[derive(Clone, Copy, Debug, PartialEq, Eq)]
pub(crate) struct Wanted {
    pub tenant: TenantId,
    pub address: Address,
    pub range: Option<Range>,
}

/// A part whose bytes the line of its request states.
#[derive(Drop)]
pub(crate) struct Part {
    pub upload: UploadId,
    pub offset: u64,
    pub bytes: PartBytes,
}

/// A part whose bytes follow the line of its request: its upload, its offset and its length.
#[derive(Clone, Copy, Debug, PartialEq, Eq)]
pub(crate) struct RawPart {
    pub upload: UploadId,
    pub offset: u64,
    pub len: u64,
}

/// An object whose bytes follow the line of its request: its tenant, its length, and the address that it must have, if that is given.
#[derive(Clone, Copy, Debug, PartialEq, Eq)]
pub(crate) struct Filing {
    pub tenant: TenantId,
    pub address: Option<Address>,
    pub len: u64,
}

/// The bytes of a part that a line states. In contracts they are their list.
#[derive(Drop)]
pub(crate) struct PartBytes {
    bytes: Vec<u8>,
}

impl Model for PartBytes {
    ghost use Rattle.std.specs.Prelude.{List, ℕ};

    ghost Value = { List ℕ };

    ghost view = { λ p. p.bytes.items };
}

impl PartBytes {
    pub(crate) fn new(bytes: Vec<u8>) -> PartBytes
        ensures { result ≡ bytes.items }
    {
        PartBytes { bytes }
    }

    pub(crate) fn into_vec(self) -> Vec<u8>
        ensures { result.items ≡ self }
    {
        self.bytes
    }
}

/// The request of a line.
#[derive(Drop)]
pub(crate) enum Request {
    /// Execute a command.
    Does(Command),
    /// Answer a question of the store.
    Asks(Question),
    /// Put the bytes of a part.
    Put(Part),
    /// Put the bytes that follow the line.
    PutRaw(RawPart),
    /// File the bytes that follow the line.
    File(Filing),
    /// Fetch bytes of an object, and write them as they are.
    Fetch(Wanted),
    /// Write entries of the journal.
    Entries(EntryRange),
}

/// The request of a session's line that was read like this; `None` if a script has it too, or may have it.
pub(crate) fn request_of(line: &[u8], read: LineRead) -> Option<Request>
    ensures { AsksFor read line.now result }
{
    if !read.is_kept {
        return None;
    }
    if read.count > MAX_REQUEST {
        return None;
    }
    read_request(without_end(line))
}

fn read_request(line: &[u8]) -> Option<Request>
    ensures { result ≡ request_at line.now }
{
    match split_at(line, b' ') {
        Some((kind, fields)) => request_of_kind(kind, fields),
        None => question_of_word(line).map(|question| Request::Asks(question)),
    }
}

#[tactic(auto, unfolding(crate::specs::Requests::request_of_kind))]
fn request_of_kind(kind: &[u8], fields: &[u8]) -> Option<Request>
    ensures { result ≡ request_of_kind kind.now fields.now }
{
    if kind == b"putb".as_slice() {
        return three_numbers(fields).map(|(upload, offset, len)| {
            Request::PutRaw(RawPart {
                upload: UploadId::new(upload),
                offset,
                len,
            })
        });
    }
    if kind == b"file".as_slice() {
        return two_numbers(fields).map(|(tenant, len)| {
            Request::File(Filing {
                tenant: TenantId::new(tenant),
                address: None,
                len,
            })
        });
    }
    if kind == b"fileas".as_slice() {
        return file_as(fields);
    }
    if kind == b"fetchb".as_slice() {
        return fetch(fields);
    }
    if kind == b"entries".as_slice() {
        return entries(fields);
    }
    session_question(kind, fields).map(|question| Request::Asks(question))
}

fn file_as(fields: &[u8]) -> Option<Request>
    ensures { result ≡ file_as_at fields.now }
{
    let (tenant, others) = split_at(fields, b' ')?;
    let tenant = number(tenant)?;
    let (digits, len) = split_at(others, b' ')?;
    let address = address(digits)?;
    let len = number(len)?;
    Some(Request::File(Filing {
        tenant: TenantId::new(tenant),
        address: Some(address),
        len,
    }))
}

fn fetch(fields: &[u8]) -> Option<Request>
    ensures { result ≡ fetch_at fields.now }
{
    if let Some(request) = fetch_range(fields) {
        return Some(request);
    }
    let (tenant, address) = number_and_address(fields)?;
    Some(Request::Fetch(Wanted {
        tenant: TenantId::new(tenant),
        address,
        range: None,
    }))
}

fn fetch_range(fields: &[u8]) -> Option<Request>
    ensures { result ≡ fetch_range_at fields.now }
{
    let (tenant, others) = split_at(fields, b' ')?;
    let tenant = TenantId::new(number(tenant)?);
    let (digits, numbers) = split_at(others, b' ')?;
    let address = address(digits)?;
    let (from, len) = two_numbers(numbers)?;
    Some(Request::Fetch(Wanted {
        tenant,
        address,
        range: Some(Range { from, len }),
    }))
}

fn entries(fields: &[u8]) -> Option<Request>
    ensures { result ≡ entries_at fields.now }
{
    let (from, count) = match number(fields) {
        Some(from) => (from, None),
        None => {
            let (from, count) = two_numbers(fields)?;
            (from, Some(count))
        }
    };
    Some(Request::Entries(EntryRange { from, count }))
}
