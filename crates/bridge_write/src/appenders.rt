// The appender, and what delete_oldest and room answer, as rows of numbers.
ghost use Rattle.std.specs.Prelude.{◌≡◌, ◌≤◌, length};
ghost use Rattle.le.specs.Part.{part, over};
ghost use Rattle.append.specs.Calls.{app_answer, room_answer};
ghost use Rattle.store.specs.Writing.{gone_answer};
ghost use Rattle.bridge.specs.Numbers.{code_of, number_words};
ghost use Rattle.bridge_write.specs.Writing.{tail_at, appender_of, tail_kind, tail_count, appender_words, went_name, went_words, open_words};

use append::{Appender, Dir, Handed, Room, Tail};
use bridge::numbers;
use bridge::numbers::{flag, narrow};
use medium::Error;
use remove::Gone;

fn tail_in(kind: u64, count: u64) -> Tail
    ensures { result ≡ tail_at kind count }
{
    match kind {
        0 => Tail::At(narrow(count)),
        1 => Tail::Reopened(narrow(count)),
        _ => Tail::Closed,
    }
}

pub fn appender_in(w: [u64; 10], buffer: [u8; 486], dir: [u8; 40]) -> Appender
    ensures { result ≡ appender_of w buffer dir }
{
    Appender {
        token: narrow(w[0]),
        slot: w[1] as usize,
        id: narrow(w[2]),
        chunk: narrow(w[3]),
        position: narrow(w[4]),
        tail: tail_in(w[5], w[6]),
        fill: w[7] as usize,
        buffer,
        rolls: w[8] != 0,
        dir: Dir {
            bytes: dir,
            length: w[9] as usize,
        },
    }
}

// 0 at, 1 reopened, 2 closed; and its count.
fn tail_numbers(tail: Tail) -> (u64, u64)
    ensures { (result.0 ≡ tail_kind tail) × (result.1 ≡ tail_count tail) }
{
    match tail {
        Tail::At(n) => (0, n as u64),
        Tail::Reopened(n) => (1, n as u64),
        Tail::Closed => (2, 0),
    }
}

pub fn appender_words(a: Appender) -> [u64; 10]
    ensures { result ≡ appender_words a }
{
    let (kind, count) = tail_numbers(a.tail);
    [
        a.token as u64,
        a.slot as u64,
        a.id as u64,
        a.chunk as u64,
        a.position as u64,
        kind,
        count,
        a.fill as u64,
        flag(a.rolls),
        a.dir.length as u64,
    ]
}

// An appender over the row and the bytes that were lent for it.
pub fn put_appender(
    a: Appender,
    appender: &mut [u64; 10],
    buffer: &mut [u8; 486],
    dir: &mut [u8; 40],
)
    ensures { (appender.new ≡ appender_words a) × (buffer.new ≡ a.buffer) × (dir.new ≡ a.dir.bytes) }
{
    buffer.copy_from_slice(&a.buffer);
    dir.copy_from_slice(&a.dir.bytes);
    *appender = appender_words(a);
}

// What a call of an appender answers over what was lent for it, and the call's number.
pub fn put_handed(
    r: Handed,
    store: &mut [u64; 43],
    crcs: &mut [u32; 24],
    appender: &mut [u64; 10],
    buffer: &mut [u8; 486],
    dir: &mut [u8; 40],
    medium: &mut [u64; 4],
) -> u32
    ensures { (result, store.new, crcs.new, appender.new, buffer.new, dir.new, medium.new) ≡ open_words (app_answer r) }
{
    numbers::put_store(r.store, store, crcs);
    put_appender(r.appender, appender, buffer, dir);
    *medium = numbers::medium_words(r.medium);
    numbers::code(r.outcome)
}

// The length of the name that went; 0 where none did.
fn gone_length(g: Gone) -> usize
    ensures { (part 0 result g.name ≡ went_name (gone_answer g).answer) × (result ≡ length (went_name (gone_answer g).answer)) × (result ≤ 40) }
{
    let o = g.outcome;
    if let Err(_) = o {
        return 0;
    }
    if !g.any {
        return 0;
    }
    if g.length < 40 {
        return g.length;
    }
    40
}

// 0, or the number of a refusal of `delete_oldest`.
pub fn gone_code(g: Gone) -> u32
    ensures { result ≡ code_of (gone_answer g).answer }
{
    let o = g.outcome;
    match o {
        Ok(()) => 0,
        Err(e) => medium::number(e),
    }
}

// 1 and the length of the name that went, or 0.
pub fn gone_words(g: Gone) -> [u64; 3]
    ensures { result ≡ went_words (gone_answer g).answer }
{
    let n = gone_length(g);
    let o = g.outcome;
    if let Err(_) = o {
        return [0, 0, 0];
    }
    if !g.any {
        return [0, 0, 0];
    }
    [1, n as u64, 0]
}

// The bytes of the name that went over those that were lent.
pub fn gone_name(g: Gone, lent: [u8; 40]) -> [u8; 40]
    ensures { result ≡ over 0 (went_name (gone_answer g).answer) lent }
{
    let n = gone_length(g);
    let name = g.name;
    let mut bytes = lent;
    runs::put_bytes(&mut bytes, 0, &name[0..n]);
    bytes
}

// 0, or 3 where `room` is refused.
pub fn room_code(r: Room) -> u32
    ensures { result ≡ code_of (room_answer r) }
{
    match r {
        Room::Refused(e) => medium::number(e),
        Room::Is(_) => 0,
    }
}

pub fn room_words(r: Room) -> [u64; 3]
    ensures { result ≡ number_words (room_answer r) }
{
    match r {
        Room::Refused(_) => [0, 0, 0],
        Room::Is(n) => [n as u64, 0, 0],
    }
}
