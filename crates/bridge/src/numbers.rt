// Handles, the medium record and answers as rows of numbers, and back.
ghost use Rattle.std.specs.Prelude.{◌≡◌, ℕ, List, [], ◌∷◌};
ghost use Rattle.store.specs.Reading.{store_answer, count_answer, found_answer};
ghost use Rattle.reader.specs.Calls.{next_answer, numbered_answer};
ghost use Rattle.bridge.specs.Numbers.{code_of, refusal_of, narrow_of, medium_of, medium_words, writer_of, map_in, store_of, flag_of};
ghost use Rattle.bridge.specs.Numbers.{writer_words, row_words, store_words, end_at, reader_of, end_words, reader_words, found_words, item_words, number_words};
ghost use Rattle.bridge.specs.Calls.{mount_words};

use directory::Found;
use freemap::FreeMap;
use handles::{Header, Store, Writer};
use medium::{Error, Medium};
use reader::{Next, Reader};
use store::StoreAnswer;

// The low 32 bits.
pub fn narrow(x: u64) -> u32
    ensures { result ≡ narrow_of x }
{
    (x % 0x1_0000_0000) as u32
}

pub fn medium_in(w: [u64; 4]) -> Medium
    ensures { result ≡ medium_of w }
{
    Medium {
        left: narrow(w[0]),
        unreadable: w[1],
        entropy: w[2],
        token: narrow(w[3]),
    }
}

pub fn medium_words(m: Medium) -> [u64; 4]
    ensures { result ≡ medium_words m }
{
    [m.left as u64, m.unreadable, m.entropy, m.token as u64]
}

fn writer_in(kind: u64, token: u64, id: u64) -> Option<Writer>
    ensures { result ≡ writer_of kind token id }
{
    if kind == 0 {
        None
    } else {
        Some(Writer {
            token: narrow(token),
            id: narrow(id),
        })
    }
}

fn map_in(w: [u64; 43]) -> FreeMap
    ensures { result ≡ map_in w }
{
    let mut words = [0u64; 32];
    words.copy_from_slice(&w[11..]);
    FreeMap {
        fit: w[10] != 0,
        words,
    }
}

pub fn store_in(w: [u64; 43], crcs: [u32; 24]) -> Store
    ensures { result ≡ store_of w crcs }
{
    let head = Header {
        id: w[1],
        generation: w[2],
        next_id: narrow(w[3]),
        cursor: narrow(w[4]),
        chunks: narrow(w[5]),
        chunk: narrow(w[6]),
        crcs,
    };
    Store {
        copy: w[0],
        head,
        writer: writer_in(w[7], w[8], w[9]),
        free: map_in(w),
    }
}

pub fn flag(b: bool) -> u64
    ensures { result ≡ flag_of b }
{
    if b { 1 } else { 0 }
}

// Whether an appender is open, its token and its file's id.
fn writer_numbers(writer: Option<Writer>) -> (u64, u64, u64)
    ensures { (l : List ℕ) → writer_words writer l ≡ result.0 ∷ result.1 ∷ result.2 ∷ l }
{
    match writer {
        None => (0, 0, 0),
        Some(open) => (1, open.token as u64, open.id as u64),
    }
}

// The numbers before the words of the map.
fn row(s: Store) -> [u64; 11]
    ensures { result ≡ row_words s [] }
{
    let (open, token, id) = writer_numbers(s.writer);
    [
        s.copy,
        s.head.id,
        s.head.generation,
        s.head.next_id as u64,
        s.head.cursor as u64,
        s.head.chunks as u64,
        s.head.chunk as u64,
        open,
        token,
        id,
        flag(s.free.fit),
    ]
}

pub fn store_words(s: Store) -> [u64; 43]
    ensures { result ≡ store_words s }
{
    let mut w = [0u64; 43];
    w[..11].copy_from_slice(&row(s));
    w[11..].copy_from_slice(&s.free.words);
    w
}

// A store over the row and the checksums that were lent for it.
pub fn put_store(s: Store, store: &mut [u64; 43], crcs: &mut [u32; 24])
    ensures { (store.new ≡ store_words s) × (crcs.new ≡ s.head.crcs) }
{
    crcs.copy_from_slice(&s.head.crcs);
    *store = store_words(s);
}

// 0, or the number of a refusal.
pub fn code<T: Drop>(r: Result<T, Error>) -> u32
    ensures { result ≡ refusal_of r }
{
    match r {
        Ok(_) => 0,
        Err(e) => medium::number(e),
    }
}

// What a call answers of a store over what was lent for it, and the call's number.
pub fn put_told(
    r: StoreAnswer,
    store: &mut [u64; 43],
    crcs: &mut [u32; 24],
    medium: &mut [u64; 4],
) -> u32
    ensures { (result, store.new, crcs.new, medium.new) ≡ mount_words (store_answer r) }
{
    put_store(r.store, store, crcs);
    *medium = medium_words(r.medium);
    code(r.outcome)
}

// 0, or the number of a refusal of `free_count`.
pub fn count_code(n: Result<u32, Error>) -> u32
    ensures { result ≡ code_of (count_answer n) }
{
    match n {
        Err(e) => medium::number(e),
        Ok(_) => 0,
    }
}

pub fn count_words(n: Result<u32, Error>) -> [u64; 3]
    ensures { result ≡ number_words (count_answer n) }
{
    match n {
        Err(_) => [0, 0, 0],
        Ok(x) => [x as u64, 0, 0],
    }
}

// 0, or the number of a refusal of `find`.
pub fn found_code(f: Result<Found, Error>) -> u32
    ensures { result ≡ code_of (found_answer f) }
{
    match f {
        Err(e) => medium::number(e),
        Ok(_) => 0,
    }
}

// The slot and the file id.
pub fn found_words(f: Result<Found, Error>) -> [u64; 3]
    ensures { result ≡ found_words (found_answer f) }
{
    match f {
        Err(_) => [0, 0, 0],
        Ok(Found { slot, id }) => [slot as u64, id as u64, 0],
    }
}

fn end_in(kind: u64, records: u64) -> Option<u32>
    ensures { result ≡ end_at kind records }
{
    if kind == 0 {
        None
    } else {
        Some(narrow(records))
    }
}

pub fn reader_in(w: [u64; 10]) -> Reader
    ensures { result ≡ reader_of w }
{
    Reader {
        store: w[0],
        generation: w[1],
        slot: w[2] as usize,
        id: narrow(w[3]),
        chunks: narrow(w[4]),
        chunk: narrow(w[5]),
        end: end_in(w[6], w[7]),
        position: narrow(w[8]),
        index: narrow(w[9]),
    }
}

// Whether the chunk is other than the last of its file, and the records before its end.
fn end_numbers(end: Option<u32>) -> (u64, u64)
    ensures { (l : List ℕ) → end_words end l ≡ result.0 ∷ result.1 ∷ l }
{
    match end {
        None => (0, 0),
        Some(n) => (1, n as u64),
    }
}

pub fn reader_words(r: Reader) -> [u64; 10]
    ensures { result ≡ reader_words r }
{
    let (known, records) = end_numbers(r.end);
    [
        r.store,
        r.generation,
        r.slot as u64,
        r.id as u64,
        r.chunks as u64,
        r.chunk as u64,
        known,
        records,
        r.position as u64,
        r.index as u64,
    ]
}

// 0, or the number of a refusal of `next`.
pub fn next_code(n: Result<Next, Error>) -> u32
    ensures { result ≡ code_of (next_answer n) }
{
    match n {
        Err(e) => medium::number(e),
        Ok(_) => 0,
    }
}

// 0 the end; 1 and the payload's length; 2 and a hole's first record, the one past it and how many of its sectors are blank.
pub fn next_words(n: Result<Next, Error>) -> [u64; 4]
    ensures { result ≡ item_words (next_answer n) }
{
    match n {
        Err(_) => [0, 0, 0, 0],
        Ok(Next::Payload(length)) => [1, length as u64, 0, 0],
        Ok(Next::Hole { from, to, blank }) => [2, from as u64, to as u64, blank as u64],
        Ok(Next::End) => [0, 0, 0, 0],
    }
}

// 0, or the number of a refusal of `record`.
pub fn numbered_code(n: Result<u32, Error>) -> u32
    ensures { result ≡ code_of (numbered_answer n) }
{
    match n {
        Err(e) => medium::number(e),
        Ok(_) => 0,
    }
}

pub fn numbered_words(n: Result<u32, Error>) -> [u64; 3]
    ensures { result ≡ number_words (numbered_answer n) }
{
    match n {
        Err(_) => [0, 0, 0],
        Ok(number) => [number as u64, 0, 0],
    }
}
