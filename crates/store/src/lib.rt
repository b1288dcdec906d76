// The calls on offer. Each takes any bytes, names and handles: bad input gets its number.
#![tactic(auto)]

mod opening;

ghost use Rattle.std.specs.Prelude.{◌≡◌, [], ◌≤◌, length};
ghost use Rattle.le.specs.Part.{over, zeros};
ghost use Rattle.medium.specs.Sector.{sectors_of};
ghost use Rattle.plan.specs.Copy.{refused_out};
ghost use Rattle.store.specs.Asked.{asked_of};
ghost use Rattle.store.specs.Writing.{format_call, answer_of, delete_call, gone_answer, oldest_call};
ghost use Rattle.store.specs.Reading.{store_answer, filled_of, mount_call, free_count_answer, free_count_call, find_answer, find_call};
ghost use Rattle.store.specs.Reading.{list_answer, not_listed, list_call, reader_answer};
ghost use Rattle.store.specs.Reading.{no_reader_answer, started_at, reader_call, reader_of_id_call};

use directory::Found;
use handles::Store;
use medium::{Error, Medium};
pub use opening::{create, open_append};
use plan::Committed;
use reader::Reader;
use remove::Gone;

// Refusals 3 and 1 of a call that takes a store value and a name or directory; `fine`: that one passes its rule.
fn asked(volume: &[u8], store: Store, fine: bool) -> Result<(), Error>
    ensures { result ≡ asked_of volume.now store fine }
{
    if !store.handle_ok(medium::sectors(volume)) {
        return Err(Error::Handle);
    }
    if !fine {
        return Err(Error::Name);
    }
    Ok(())
}

#[derive(Clone, Copy)]
pub struct StoreAnswer {
    pub outcome: Result<(), Error>,
    pub store: Store,
    pub medium: Medium,
}

// What a commit or a format came to.
fn committed(c: Committed) -> StoreAnswer
    ensures { result ≡ answer_of c }
{
    let outcome = c.outcome;
    let store = c.store;
    let medium = c.medium;
    StoreAnswer {
        outcome,
        store,
        medium,
    }
}

// The store value with the map of its table.
fn filled(volume: &[u8], medium: Medium, store: Store) -> Store
    requires { (64 ≤ sectors_of volume.now) × (store.head.chunks ≤ 2048) }
    ensures { result ≡ filled_of volume.now medium store }
{
    let head = store.head;
    let writer = store.writer;
    let free = table::map_at(volume, medium, store);
    Store {
        copy: store.copy,
        head,
        writer,
        free,
    }
}

// The current metadata of the store in the volume, and the map of its free chunks.
pub fn mount(volume: &[u8], medium: Medium) -> StoreAnswer
    ensures { store_answer result ≡ mount_call volume.now medium }
{
    let m = header::mount(volume, medium);
    let outcome = m.outcome;
    let found = m.store;
    if let Err(_) = outcome {
        return StoreAnswer {
            outcome,
            store: found,
            medium,
        };
    }
    let store = filled(volume, medium, found);
    StoreAnswer {
        outcome,
        store,
        medium,
    }
}

#[derive(Clone, Copy)]
pub struct FreeCountAnswer {
    pub count: Result<u32, Error>,
    pub medium: Medium,
}

// How many chunks are free.
pub fn free_count(volume: &[u8], medium: Medium, store: Store) -> FreeCountAnswer
    ensures { free_count_answer result ≡ free_count_call volume.now medium store }
{
    let o = asked(volume, store, true);
    if let Err(e) = o {
        return FreeCountAnswer {
            count: Err(e),
            medium,
        };
    }
    let count = table::free_count(volume, medium, store);
    FreeCountAnswer { count, medium }
}

// A new, empty store with chunks of `size` sectors, superseding any store there.
pub fn format(volume: &mut [u8], medium: Medium, size: u32, seed: u64) -> StoreAnswer
    ensures { (volume.new ≡ (format_call volume.old medium size seed).vol)
        × (store_answer result ≡ (format_call volume.old medium size seed).call) }
{
    committed(format::format(volume, medium, size, seed))
}

#[derive(Clone, Copy)]
pub struct FindAnswer {
    pub found: Result<Found, Error>,
    pub medium: Medium,
}

// The slot and id of a file.
pub fn find(volume: &[u8], medium: Medium, store: Store, name: &[u8]) -> FindAnswer
    ensures { find_answer result ≡ find_call volume.now medium store name.now }
{
    let o = asked(volume, store, names::name_ok(name));
    if let Err(e) = o {
        return FindAnswer {
            found: Err(e),
            medium,
        };
    }
    let found = directory::find(volume, medium, store, name);
    FindAnswer { found, medium }
}

#[derive(Clone, Copy)]
pub struct ListAnswer {
    pub outcome: Result<(), Error>,
    pub count: usize,
    pub medium: Medium,
}

// Refused with no row made.
fn not_listed(e: Error, medium: Medium) -> ListAnswer
    ensures { result ≡ not_listed medium e }
{
    ListAnswer {
        outcome: Err(e),
        count: 0,
        medium,
    }
}

// The first 64 counts set to 0.
fn clear_counts(counts: &mut [u16])
    requires { 64 ≤ length counts.old }
    ensures { counts.new ≡ over 0 (zeros 64) counts.old }
{
    for i in 0..64 {
        counts[i] = 0;
    }
}

// The files in a directory, in slot order: 48 bytes a row. `counts` are the chunks of each slot.
pub fn list(
    volume: &[u8],
    medium: Medium,
    store: Store,
    dir: &[u8],
    counts: &mut [u16],
    rows: &mut [u8],
) -> ListAnswer
    ensures { list_answer result counts.new rows.new
        ≡ list_call volume.now medium store dir.now counts.old rows.old }
{
    if (rows.len() < 3072) | (counts.len() < 64) {
        return not_listed(Error::Range, medium);
    }
    let o = asked(volume, store, names::dir_ok(dir));
    if let Err(e) = o {
        return not_listed(e, medium);
    }
    clear_counts(counts);
    let c = table::count(volume, medium, store, counts);
    if let Err(e) = c {
        return not_listed(e, medium);
    }
    let made = directory::list_rows(volume, medium, store, dir, counts, rows);
    let outcome = made.outcome;
    ListAnswer {
        outcome,
        count: made.count,
        medium,
    }
}

#[derive(Clone, Copy)]
pub struct ReaderAnswer {
    pub outcome: Result<(), Error>,
    pub reader: Reader,
    pub medium: Medium,
}

// A refused reader call hands back a reader that no call accepts.
fn no_reader(e: Error, medium: Medium) -> ReaderAnswer
    ensures { result ≡ no_reader_answer medium e }
{
    let reader = reader::no_reader();
    ReaderAnswer {
        outcome: Err(e),
        reader,
        medium,
    }
}

// A reader of the file found, from its first record.
fn started(volume: &[u8], medium: Medium, store: Store, f: Result<Found, Error>) -> ReaderAnswer
    requires { (64 ≤ sectors_of volume.now) × (store.head.chunks ≤ 2048) }
    ensures { result ≡ started_at volume.now medium store f }
{
    let found = match f {
        Ok(found) => found,
        Err(e) => return no_reader(e, medium),
    };
    match table::chain(volume, medium, store, found.slot) {
        Ok(chain) => ReaderAnswer {
            outcome: Ok(()),
            reader: Reader::start(store, found.slot, found.id, chain),
            medium,
        },
        Err(e) => no_reader(e, medium),
    }
}

// A reader of a file from its first record.
pub fn reader(volume: &[u8], medium: Medium, store: Store, name: &[u8]) -> ReaderAnswer
    ensures { reader_answer result ≡ reader_call volume.now medium store name.now }
{
    let o = asked(volume, store, names::name_ok(name));
    if let Err(e) = o {
        return no_reader(e, medium);
    }
    let f = directory::find(volume, medium, store, name);
    started(volume, medium, store, f)
}

// S-1: the same of the file with an id, in the lowest slot that has it.
pub fn reader_of_id(volume: &[u8], medium: Medium, store: Store, id: u32) -> ReaderAnswer
    ensures { reader_answer result ≡ reader_of_id_call volume.now medium store id }
{
    let o = asked(volume, store, true);
    if let Err(e) = o {
        return no_reader(e, medium);
    }
    let f = directory::find_id(volume, medium, store, id);
    started(volume, medium, store, f)
}

// A refused call hands its store value and medium record back.
fn as_given(e: Error, store: Store, medium: Medium) -> StoreAnswer
    ensures { result ≡ answer_of (refused_out store [] medium e).ans }
{
    StoreAnswer {
        outcome: Err(e),
        store,
        medium,
    }
}

// Deletes a file; an appender that writes it is stale from now on.
pub fn delete(volume: &mut [u8], medium: Medium, store: Store, name: &[u8]) -> StoreAnswer
    ensures { (volume.new ≡ (delete_call volume.old medium store name.now).vol)
        × (store_answer result ≡ (delete_call volume.old medium store name.now).call) }
{
    let o = asked(&volume[..], store, names::name_ok(name));
    if let Err(e) = o {
        return as_given(e, store, medium);
    }
    match directory::find(&volume[..], medium, store, name) {
        Err(e) => as_given(e, store, medium),
        Ok(Found { slot, id }) => committed(remove::remove(volume, medium, store, slot, id)),
    }
}

// Deletes the oldest file in a directory other than the open appender's, and tells its name, or that there is none.
pub fn delete_oldest(volume: &mut [u8], medium: Medium, store: Store, dir: &[u8]) -> Gone
    ensures { (volume.new ≡ (oldest_call volume.old medium store dir.now).vol)
        × (gone_answer result ≡ (oldest_call volume.old medium store dir.now).call)
        × (result ≡ (oldest_call volume.old medium store dir.now).gone) }
{
    let o = asked(&volume[..], store, names::dir_ok(dir));
    if let Err(e) = o {
        return remove::none_gone(Err(e), medium, store);
    }
    let spared = handles::open_file(store.writer);
    remove::remove_oldest(volume, medium, store, dir, spared)
}
