// The metadata written anew into the other copy: the Rust's `Store::commit`, whose closure is a named edit here.
#![tactic(auto)]

ghost use Rattle.std.specs.Prelude.{◌≡◌, true, false, ◌&&◌, ◌+◌, ◌^◌, ◌<◌, ◌≤◌, eqb, length, Ok, Err};
ghost use Rattle.runs.specs.Run.{same_bytes};
ghost use Rattle.checksum.specs.Crc.{crc32_of};
ghost use Rattle.medium.specs.Refusal.{on_done};
ghost use Rattle.medium.specs.Sector.{sectors_of, sector_at, read_of};
ghost use Rattle.handles.specs.Body.{body_at, check_of};
ghost use Rattle.handles.specs.Handles.{body_of, store_ok};
ghost use Rattle.plan.specs.Edit.{Fits, head_after};
ghost use Rattle.plan.specs.Copy.{is_format, body_sector_of, body_from, copy_out};
ghost use Rattle.commit.specs.Commit.{same_head, is_current, commit_plan, commit_of};

use freemap::FreeMap;
use handles::{Header, Store};
use header::Current;
use medium::{Error, Medium};
use plan::{BodyWritten, Committed, Edit};

fn same_crcs(a: [u32; 24], b: [u32; 24]) -> bool
    ensures { result ≡ same_bytes a b }
{
    for i in 0..24 {
        if a[i] != b[i] {
            return false;
        }
    }
    true
}

fn same_head(a: Header, b: Header) -> bool
    ensures { result ≡ same_head a b }
{
    let x = a.crcs;
    let y = b.crcs;
    (a.id == b.id)
        & ((a.generation == b.generation)
            & ((a.next_id == b.next_id)
                & ((a.cursor == b.cursor)
                    & ((a.chunks == b.chunks) & ((a.chunk == b.chunk) & same_crcs(x, y))))))
}

fn is_current(found: Current, store: Store) -> bool
    ensures { result ≡ is_current found store }
{
    let x = found.head;
    let y = store.head;
    (found.copy == store.copy) & same_head(x, y)
}

// The checksum of a sector: an array's length is known, so that a caller owes nothing.
fn crc_of(sector: &[u8; 512]) -> u32
    ensures { result ≡ crc32_of sector.now }
{
    checksum::crc32(sector)
}

// Whether the other header, where it is of this store, lists this checksum.
fn lists(known: bool, theirs: u32, crc: u32) -> bool
    ensures { result ≡ (known && eqb theirs crc) }
{
    known & (theirs == crc)
}

// Body sector `k` of the store's own copy, read and checked.
fn read_body(
    volume: &[u8],
    medium: Medium,
    store: Store,
    k: usize,
    sector: &mut [u8; 512],
) -> Result<(), Error>
    requires { (64 ≤ sectors_of volume.now) × (k < 24) }
    ensures { (result ≡ check_of volume.now medium store k)
        × (sector.new ≡ on_done (read_of medium (body_at store k)) (sector_at volume.now (body_at store k)) (λ _. sector.old)) }
{
    let at = handles::base(store.copy) + 1 + (k as u64);
    let o = medium::read_sector(volume, medium, at, sector);
    if let Err(e) = o {
        return Err(e);
    }
    let h = store.head;
    if checksum::crc32(sector) == h.crcs[k] {
        return Ok(());
    }
    Err(Error::Corrupt)
}

// What the body has come to: the header so far.
fn so_far(outcome: Result<(), Error>, medium: Medium, head: Header) -> BodyWritten
    ensures { result ≡ record { outcome = outcome; medium = medium; head = head } }
{
    BodyWritten {
        outcome,
        medium,
        head,
    }
}

// A refusal hands back the store value that was given.
fn refused(e: Error, medium: Medium, store: Store) -> Committed
    ensures { result ≡ record { outcome = Err e; medium = medium; store = store } }
{
    Committed {
        outcome: Err(e),
        medium,
        store,
    }
}

// The store of the copy that was written, with the map after the edit.
fn finished(medium: Medium, store: Store, copy: u64, head: Header, free: FreeMap) -> Committed
    ensures { result ≡ record { outcome = Ok tt; medium = medium; store = record { copy = copy; head = head; writer = store.writer; free = free } } }
{
    let writer = store.writer;
    Committed {
        outcome: Ok(()),
        medium,
        store: Store {
            copy,
            head,
            writer,
            free,
        },
    }
}

// One body sector: left unread, or read, checked, edited, and written to the other copy unless its header lists the checksum.
fn write_body_sector(
    volume: &mut [u8],
    medium: Medium,
    store: Store,
    found: Current,
    head: Header,
    edit: Edit,
    name: &[u8],
    k: usize,
) -> BodyWritten
    requires { (store.copy < 2) × (64 ≤ sectors_of volume.old) × (k < 24) × (Fits edit store.head.chunks) × (is_format edit ≡ false)
        × (length name.now ≤ 40) }
    ensures { (volume.new ≡ (body_sector_of (commit_plan found edit name.now store) volume.old medium head k).vol)
        × (result ≡ (body_sector_of (commit_plan found edit name.now store) volume.old medium head k).ans) }
{
    let own = store.head;
    let changing = plan::changes(edit, k);
    let known = found.known;
    let theirs = found.listed[k];
    if !changing & lists(known, theirs, own.crcs[k]) {
        return so_far(Ok(()), medium, head);
    }
    let mut sector = [0u8; 512];
    let o = read_body(&volume[..], medium, store, k, &mut sector);
    if let Err(e) = o {
        return so_far(Err(e), medium, head);
    }
    plan::edited(changing, edit, name, k, own.chunks, &mut sector);
    let crc = crc_of(&sector);
    let mut next = head;
    next.crcs[k] = crc;
    if lists(known, theirs, crc) {
        return so_far(Ok(()), medium, next);
    }
    let at = handles::base(1 - store.copy) + 1 + (k as u64);
    let w = medium::write_sector(&mut *volume, medium, at, &sector);
    let outcome = w.outcome;
    let after = w.medium;
    so_far(outcome, after, next)
}

// The body sectors in order, up to a refusal.
fn write_body(
    volume: &mut [u8],
    medium: Medium,
    store: Store,
    found: Current,
    edit: Edit,
    name: &[u8],
) -> BodyWritten
    requires { (store_ok store (sectors_of volume.old) ≡ true) × (store.head.generation + 1 < 2 ^ 64) × (Fits edit store.head.chunks)
        × (is_format edit ≡ false) × (length name.now ≤ 40) }
    ensures { (volume.new
        ≡ (body_from (commit_plan found edit name.now store) (body_of store.head.chunks) 0 volume.old medium
        (head_after edit store.head)).vol)
        × (result
        ≡ (body_from (commit_plan found edit name.now store) (body_of store.head.chunks) 0 volume.old medium
        (head_after edit store.head)).ans) }
{
    let own = store.head;
    let n = handles::body(own.chunks);
    let mut head = plan::head_after(edit, own);
    let mut m = medium;
    let mut k = 0;
    while k < n {
        let s = write_body_sector(&mut *volume, m, store, found, head, edit, name, k);
        let o = s.outcome;
        if let Err(_) = o {
            return s;
        }
        m = s.medium;
        head = s.head;
        k += 1;
    }
    so_far(Ok(()), m, head)
}

// The other copy written anew: its header zeroed, the body, the new header.
fn rewrite(
    volume: &mut [u8],
    medium: Medium,
    store: Store,
    found: Current,
    edit: Edit,
    name: &[u8],
) -> Committed
    requires { (store_ok store (sectors_of volume.old) ≡ true) × (store.head.generation + 1 < 2 ^ 64) × (Fits edit store.head.chunks)
        × (is_format edit ≡ false) × (length name.now ≤ 40) }
    ensures { (volume.new ≡ (copy_out (commit_plan found edit name.now store) volume.old medium).vol)
        × (result ≡ (copy_out (commit_plan found edit name.now store) volume.old medium).ans) }
{
    // before the first write, while a removed file's links stand as they were given
    let free = plan::map_after(&volume[..], store, edit);
    let copy = 1 - store.copy;
    let z = medium::zero_sector(&mut *volume, medium, handles::base(copy));
    let zo = z.outcome;
    let zm = z.medium;
    if let Err(e) = zo {
        return refused(e, zm, store);
    }
    let b = write_body(&mut *volume, zm, store, found, edit, name);
    let bo = b.outcome;
    let bm = b.medium;
    if let Err(e) = bo {
        return refused(e, bm, store);
    }
    let head = b.head;
    let w = header::write_head(&mut *volume, bm, copy, head);
    let wo = w.outcome;
    let wm = w.medium;
    if let Err(e) = wo {
        return refused(e, wm, store);
    }
    finished(wm, store, copy, head, free)
}

// Makes the edit in the metadata, where the store value is the current one.
pub fn commit(volume: &mut [u8], medium: Medium, store: Store, edit: Edit, name: &[u8]) -> Committed
    requires { (store_ok store (sectors_of volume.old) ≡ true) × (Fits edit store.head.chunks) × (is_format edit ≡ false) × (length name.now ≤ 40) }
    ensures { (volume.new ≡ (commit_of edit name.now volume.old medium store).vol)
        × (result ≡ (commit_of edit name.now volume.old medium store).ans) }
{
    let found = header::current(&volume[..], medium);
    let o = found.outcome;
    if let Err(e) = o {
        return refused(e, medium, store);
    }
    if !is_current(found, store) {
        return refused(Error::Stale, medium, store);
    }
    let own = store.head;
    if own.generation == 0xffff_ffff_ffff_ffff {
        return refused(Error::Spent, medium, store);
    }
    rewrite(volume, medium, store, found, edit, name)
}
