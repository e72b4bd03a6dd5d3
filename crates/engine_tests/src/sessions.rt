//! Sessions over one shared store, each with its own access. Sessions at the same time are in tests/sessions.

ghost use Rattle.std.specs.Prelude.{◌≡◌, ◌^◌};
ghost use Rattle.store_shared.specs.Made.{full_limits};

use crate::fakes::ByteWriter;
use b3_core::{Runtime, Work};
use std::marker::Brand;
use std::sync::Wait;
use store_core::Limits;
use store_engines::{SharedAccess, Verdict};
use store_ledger::{Accepted, Ledgers, Share};
use store_lines::{Access, UploadsAtEnd, serve_over};
use store_shared::{Front, Locked, Shared, UnnamedLedgers};

// Serves a session with these lines, and returns whether these are its answers.
fn is_answered<A: Access, R: AllocGlobal + Runtime>(
    rt: &R,
    access: &mut A,
    at_end: UploadsAtEnd,
    lines: &[u8],
    answers: &[u8],
) -> bool {
    let mut reader = lines;
    let mut writer = ByteWriter::new(rt.alloc(), u64::MAX);
    let mut work = Work::new(rt);
    let ended = serve_over(
        rt.alloc(),
        access,
        at_end,
        &mut reader,
        &mut writer,
        &mut work,
    );
    ended == Ok(Verdict::Good) && writer.taken.as_slice() == answers
}

// A tenant, an object, and two uploads.
const BEGUN: &[u8] = b"tenant 8\nbegin 0 3\nputb 0 0 3\nabcseal 0\nbegin 0 3\nbegin 0 2\n";

const BEGUN_ANSWERS: &[u8] =
    b"tenant 0\nupload 0\nheld 3 all\nnew 6437b3ac38465133ffb63b75273a8db548c558465d79db03fd359c6cd5bd9d85 3\nupload 1\nupload 2\n";

// In another session, a part of one of the two uploads, and bytes of the object.
const OTHER: &[u8] =
    b"putb 1 0 3\nabcfetchb 0 6437b3ac38465133ffb63b75273a8db548c558465d79db03fd359c6cd5bd9d85 1 2\n";

const OTHER_ANSWERS: &[u8] = b"held 3 all\nbytes 2\nbc";

// A part of the second upload, pages of the journal, its end after two more commands, and a file that is refused and one that is not.
const PAGES: &[u8] =
    b"putb 2 0 2\nabusage 0\nentries 0 2\nentries 3 2\nentries 5 9\nentries 8 1\nentries 0 0\nseal 1\nabort 2\nentries 8 3\nentries 9\nfile 0 6\nabcdefcounts\nfileas 0 2dc99999a6aaef3f20349d2ed4057a2b54419545dabb809e6381de1bad8337e2 2\nabentries 12\n";

const PAGES_ANSWERS: &[u8] =
    b"held 2 all\nused 3 reserved 5 limit 8\njournal 2\ntenant 0 8\nbegin 0 0 3\njournal 2\nseal 0 6437b3ac38465133ffb63b75273a8db548c558465d79db03fd359c6cd5bd9d85 new\nbegin 1 0 3\njournal 3\nbegin 2 0 2\nput 1 0 3\nput 2 0 2\njournal 0\njournal 0\nknown 6437b3ac38465133ffb63b75273a8db548c558465d79db03fd359c6cd5bd9d85 3\nok\njournal 2\nseal 1 6437b3ac38465133ffb63b75273a8db548c558465d79db03fd359c6cd5bd9d85 known\nabort 2\njournal 1\nabort 2\nrefused S6 free 5\nentries 10 tenants 1 objects 1 bytes 3 uploads 0 held 0 parts 0\nnew 2dc99999a6aaef3f20349d2ed4057a2b54419545dabb809e6381de1bad8337e2 2\njournal 1\nseal 3 2dc99999a6aaef3f20349d2ed4057a2b54419545dabb809e6381de1bad8337e2 new\n";

// In the other session again, an upload that stays open.
const LASTING: &[u8] = b"begin 0 1\n";

// In a session that aborts its own uploads: a part of that one, and two uploads, of which it aborts one itself.
const OWN: &[u8] = b"putb 4 0 1\nxbegin 0 1\nbegin 0 1\nabort 5\nuploads 0\n";

const OWN_ANSWERS: &[u8] = b"held 1 all\nupload 5\nupload 6\nok\nuploads 2\n4 1 1 1\n6 1 1 0\n";

// What is open after it, its last entries, and the upload's seal.
const LEFT: &[u8] = b"uploads 0\nentries 17\nseal 4\n";

const LEFT_ANSWERS: &[u8] =
    b"uploads 1\n4 1 1 1\njournal 2\nabort 5\nabort 6\nnew 3ae7d805f6789a6402acb70ad4096a85a56bf6804eaf25c0493ac697548d30b5 1\n";

// A session's share, and what it has seen.
type Client<L> = (Share<L>, Front<L>);

// Sessions of two accesses to one store, in turn. Returns both, and whether all answers are as they should be.
fn serve_in_turn<L: Ledgers, R: Wait + AllocGlobal + Runtime>(
    rt: &R,
    shared: &Shared<L>,
    client: Client<L>,
    other: Client<L>,
) -> (Client<L>, Client<L>, bool) {
    let mut access = SharedAccess::new(rt, shared, client.0, client.1);
    let mut other_access = SharedAccess::new(rt, shared, other.0, other.1);
    let (kept, aborted) = (UploadsAtEnd::Kept, UploadsAtEnd::Aborted);
    let are_answered = is_answered(rt, &mut access, kept, BEGUN, BEGUN_ANSWERS)
        && is_answered(rt, &mut other_access, kept, OTHER, OTHER_ANSWERS)
        && is_answered(rt, &mut access, kept, PAGES, PAGES_ANSWERS)
        && is_answered(rt, &mut other_access, kept, LASTING, b"upload 4\n")
        && is_answered(rt, &mut access, aborted, OWN, OWN_ANSWERS)
        && is_answered(rt, &mut other_access, kept, LEFT, LEFT_ANSWERS);
    (access.into_parts(), other_access.into_parts(), are_answered)
}

// Whether the two shares together are everything that the store accepted.
fn are_whole<L: Ledgers>(locked: &mut Locked<L>, share: Share<L>, other: Share<L>) -> bool {
    let mut share = share;
    locked.join(&mut share, other);
    locked.settle(&mut share)
        == Ok(Accepted {
            bytes: 11,
            calls: 5,
        })
}

// Shows the whole journal to the one that has seen more.
fn show_all<L: Ledgers>(locked: &mut Locked<L>, front: Front<L>, other: Front<L>) {
    let mut seen = locked.longer(front, other);
    locked.show(&mut seen);
}

fn are_all<L: Ledgers>(shared: Shared<L>, client: Client<L>, other: Client<L>) -> bool {
    let mut locked = shared.close();
    show_all(&mut locked, client.1, other.1);
    are_whole(&mut locked, client.0, other.0)
}

fn is_shared<L: Ledgers, R: Wait + AllocGlobal + Runtime>(rt: &R, ledgers: UnnamedLedgers) -> bool
    requires bytes { (ledgers.bytes.name ≡ L.bytes_name) × (ledgers.bytes.parts ≡ L.bytes_parts) × (ledgers.bytes.parts ≡ 2 ^ 32) }
    requires calls { (ledgers.calls.name ≡ L.calls_name) × (ledgers.calls.parts ≡ L.calls_parts) × (ledgers.calls.parts ≡ 2 ^ 32) }
    requires history { ledgers.history ≡ L.history }
    requires limits { L.limits ≡ full_limits }
{
    let (shared, mut share) = Shared::<L>::new(rt.alloc(), Limits::full(), ledgers);
    let other_share = share.split(1);
    let client = (share, shared.lock(rt).front());
    let other = (other_share, shared.lock(rt).front());
    let (client, other, are_answered) = serve_in_turn(rt, &shared, client, other);
    are_answered && are_all(shared, client, other)
}

#[test]
fn sessions_share_a_store_and_page_its_journal(rt: HostRuntime) {
    let ledgers = UnnamedLedgers::new(rt.alloc()).expect(&rt, "memory for the ledgers");
    assert!(rt; is_shared::<Brand, _>(&rt, ledgers));
}
