// Create: a new file, and its appender. What the Rust has as `Store::create`.
#![tactic(auto)]

ghost use Rattle.std.specs.Prelude.{◌≡◌, ◌<◌, ◌≤◌, true, false, [], length, Ok};
ghost use Rattle.medium.specs.Sector.{sectors_of};
ghost use Rattle.handles.specs.Handles.{store_ok};
ghost use Rattle.append.specs.Appender.{no_appender};
ghost use Rattle.files.specs.Opened.{refused_at, opened_out, with_token, written_by};
ghost use Rattle.files.specs.Create.{Turned, make_out, over_out, round_out, create_of};

use append::{Appender, Dir, Handed, Tail};
use handles::{Store, Writer};
use medium::{Error, Medium};
use plan::Edit;

// The rollover of a call: whether there is one, and its directory.
#[derive(Clone, Copy)]
pub struct Rollover {
    pub rolls: bool,
    pub dir: Dir,
}

// A refused call hands back an appender that no call accepts.
pub fn refused(e: Error, medium: Medium, store: Store) -> Handed
    ensures { result ≡ (refused_at [] medium store e).ans }
{
    let appender = append::no_appender();
    Handed {
        outcome: Err(e),
        medium,
        store,
        appender,
    }
}

// The token after the last one; it wraps.
fn with_token(medium: Medium) -> Medium
    ensures { result ≡ with_token medium }
{
    Medium {
        left: medium.left,
        unreadable: medium.unreadable,
        entropy: medium.entropy,
        token: std::num::wrapping_add_u32(medium.token, 1),
    }
}

fn written_by(token: u32, id: u32, store: Store) -> Store
    ensures { result ≡ written_by token id store }
{
    let head = store.head;
    let free = store.free;
    Store {
        copy: store.copy,
        head,
        writer: Some(Writer { token, id }),
        free,
    }
}

// A new appender of a file, with nothing unwritten.
pub fn opened(
    medium: Medium,
    store: Store,
    slot: usize,
    id: u32,
    chunk: u32,
    position: u32,
    tail: Tail,
    rollover: Rollover,
) -> Handed
    ensures { result ≡ (opened_out [] medium store slot id chunk position tail rollover).ans }
{
    let m = with_token(medium);
    let token = m.token;
    let s = written_by(token, id, store);
    let dir = rollover.dir;
    let appender = Appender {
        token,
        slot,
        id,
        chunk,
        position,
        tail,
        fill: 0,
        buffer: [0u8; 486],
        rolls: rollover.rolls,
        dir,
    };
    Handed {
        outcome: Ok(()),
        medium: m,
        store: s,
        appender,
    }
}

// ---- create

// The entry and the first link go in one commit; the last id is refused before it.
fn make(
    volume: &mut [u8],
    medium: Medium,
    store: Store,
    name: &[u8],
    rollover: Rollover,
    slot: usize,
    chunk: u32,
) -> Handed
    requires { (store_ok store (sectors_of volume.old) ≡ true) × (length name.now ≤ 40) × (slot < 64) × (chunk < store.head.chunks) }
    ensures { (volume.new ≡ (make_out name.now rollover volume.old medium store slot chunk).vol)
        × (result ≡ (make_out name.now rollover volume.old medium store slot chunk).ans) }
{
    let id = store.head.next_id;
    if id == 0xffff_ffff {
        return refused(Error::Spent, medium, store);
    }
    let edit = Edit::Create { slot, id, chunk };
    let c = commit::commit(volume, medium, store, edit, name);
    let o = c.outcome;
    let m = c.medium;
    let s = c.store;
    if let Err(e) = o {
        return refused(e, m, s);
    }
    opened(m, s, slot, id, chunk, 0, Tail::At(0), rollover)
}

// What a round comes to: the answer, or what stands for another round after the oldest file went.
#[derive(Clone, Copy)]
struct Turn {
    pub again: bool,
    pub answer: Handed,
}

fn ended(answer: Handed) -> Turn
    ensures { result ≡ record { again = false; answer = answer } }
{
    Turn {
        again: false,
        answer,
    }
}

fn rolled_over(medium: Medium, store: Store) -> Turn
    ensures { result ≡ record { again = true; answer = record { outcome = Ok tt; medium = medium; store = store; appender = no_appender } } }
{
    let appender = append::no_appender();
    Turn {
        again: true,
        answer: Handed {
            outcome: Ok(()),
            medium,
            store,
            appender,
        },
    }
}

// A slot or chunk is lacking: the oldest file of the rollover's directory goes, whichever is open.
fn roll(volume: &mut [u8], medium: Medium, store: Store, rollover: Rollover) -> Turn
    requires { (store_ok store (sectors_of volume.old) ≡ true) × (rollover.rolls ≡ true → rollover.dir.length ≤ 40) }
    ensures { Turned volume.new result (λ next. over_out rollover next volume.old medium store) }
{
    if !rollover.rolls {
        return ended(refused(Error::Full, medium, store));
    }
    let dir = rollover.dir;
    let bytes = dir.bytes;
    let n = dir.length;
    let g = remove::remove_oldest(volume, medium, store, &bytes[0..n], None);
    let o = g.outcome;
    let m = g.medium;
    let s = g.store;
    if let Err(e) = o {
        return ended(refused(e, m, s));
    }
    if !g.any {
        return ended(refused(Error::Full, m, s));
    }
    rolled_over(m, s)
}

// All of the directory is looked through, and the table only if a slot is free.
fn round(volume: &mut [u8], medium: Medium, store: Store, name: &[u8], rollover: Rollover) -> Turn
    requires { (store_ok store (sectors_of volume.old) ≡ true) × (length name.now ≤ 40) × (rollover.rolls ≡ true → rollover.dir.length ≤ 40) }
    ensures { Turned volume.new result (λ next. round_out name.now rollover next volume.old medium store) }
{
    let seen = match directory::look(&volume[..], medium, store, name) {
        Ok(seen) => seen,
        Err(e) => return ended(refused(e, medium, store)),
    };
    if seen.exists {
        return ended(refused(Error::Exists, medium, store));
    }
    let Some(slot) = seen.free else {
        return roll(volume, medium, store, rollover);
    };
    let p = table::free_chunk(&volume[..], medium, store);
    match p {
        Err(e) => ended(refused(e, medium, store)),
        Ok(None) => roll(volume, medium, store, rollover),
        Ok(Some(chunk)) => {
            let x = make(volume, medium, store, name, rollover, slot, chunk);
            ended(x)
        }
    }
}

// Creates the file `name` and opens it. Where a slot or chunk is lacking, one file goes by the rollover, and then there must be both.
pub fn create(
    volume: &mut [u8],
    medium: Medium,
    store: Store,
    name: &[u8],
    rollover: Rollover,
) -> Handed
    requires { (store_ok store (sectors_of volume.old) ≡ true) × (length name.now ≤ 40) × (rollover.rolls ≡ true → rollover.dir.length ≤ 40) }
    ensures { (volume.new ≡ (create_of name.now rollover volume.old medium store).vol)
        × (result ≡ (create_of name.now rollover volume.old medium store).ans) }
{
    let first = round(&mut *volume, medium, store, name, rollover);
    let x = first.answer;
    if !first.again {
        return x;
    }
    let m = x.medium;
    let s = x.store;
    let second = round(volume, m, s, name, rollover);
    let y = second.answer;
    if !second.again {
        return y;
    }
    let n = y.medium;
    let t = y.store;
    refused(Error::Corrupt, n, t)
}
