// The directory: entries, and the walks over its 64 slots.
#![tactic(auto)]

ghost use Rattle.std.specs.Prelude.{◌≡◌, ◌+◌, ◌*◌, ◌<◌, ◌≤◌, length, Ok, Some};
ghost use Rattle.le.specs.Part.{part, over};
ghost use Rattle.runs.specs.Run.{same_bytes};
ghost use Rattle.names.specs.Names.{in_dir};
ghost use Rattle.medium.specs.Sector.{sectors_of};
ghost use Rattle.handles.specs.Handles.{base_of};
ghost use Rattle.directory.specs.declared.File.{File};
ghost use Rattle.directory.specs.Entry.{entry_bytes, entry_of, entry_at, slot_at};
ghost use Rattle.directory.specs.Scan.{scan_of, first, Decides, find_of, find_id_of, free_seen, file_seen, look_of, is_older, older_of, oldest_of};
ghost use Rattle.directory.specs.Rows.{row_of, rows_told, rows_of};

use handles::Store;
use medium::{Error, Medium};

// A file as its entry has it: the name is the entry's first `len` bytes.
#[derive(Clone, Copy)]
pub struct File {
    pub id: u32,
    pub len: usize,
}

// The bytes of an entry, read: no file where it is free.
#[tactic(auto, unfolding(crate::specs::Entry::entry_of, crate::specs::Entry::entry_ok, crate::specs::Entry::len_of, le::specs::Part::part, le::specs::Choice::pick))]
pub fn decode_entry(entry: &[u8]) -> Result<Option<File>, Error>
    requires { length entry.now ≡ 64 }
    ensures { result ≡ entry_of entry.now }
{
    if runs::all_zero(entry) {
        return Ok(None);
    }
    let len = names::text_len(&entry[0..40]);
    let id = le::get_u32(entry, 40);
    if names::name_ok(&entry[0..len])
        && runs::all_zero(&entry[len..40])
        && id != 0
        && runs::all_zero(&entry[44..64])
    {
        Ok(Some(File { id, len }))
    } else {
        Err(Error::Corrupt)
    }
}

// An entry made in its place.
pub fn put_entry(entry: &mut [u8], name: &[u8], id: u32)
    requires { (length entry.old ≡ 64) × (length name.now ≤ 40) }
    ensures { entry.new ≡ entry_bytes name.now id }
{
    runs::put_zeros(entry, 0, 64);
    runs::put_bytes(entry, 0, name);
    le::put_u32(entry, 40, id);
}

// Where the entry of a slot starts in the volume.
pub fn entry_place(copy: u64, slot: usize) -> usize
    requires { slot < 64 }
    ensures { (result ≡ 512 * (base_of copy + 1) + 64 * slot) × (result ≤ 20928) }
{
    512 * ((handles::base(copy) + 1) as usize) + 64 * slot
}

// What the directory holds at a slot; its sector is checked at its first entry.
#[tactic(auto, unfolding(crate::specs::Entry::slot_at, medium::specs::Refusal::on_done))]
pub fn slot_at(
    volume: &[u8],
    medium: Medium,
    store: Store,
    slot: usize,
) -> Result<Option<File>, Error>
    requires { (64 ≤ sectors_of volume.now) × (slot < 64) }
    ensures read { result ≡ slot_at volume.now medium store slot }
    ensures short { (file : File) → result ≡ Ok (Some file) → file.len ≤ 40 }
{
    handles::due(store, volume, medium, slot % 8 == 0, slot / 8)?;
    let a = entry_place(store.copy, slot);
    decode_entry(&volume[a..a + 64])
}

// The name of the file at a slot, which has `len` bytes.
fn name_at(volume: &[u8], store: Store, slot: usize, len: usize) -> &[u8]
    requires { (64 ≤ sectors_of volume.now) × (slot < 64) × (len ≤ 40) }
    ensures name { result.now ≡ part 0 len (entry_at volume.now store slot) }
    ensures short { length result.now ≤ 40 }
{
    let a = entry_place(store.copy, slot);
    &volume[a..a + len]
}

// Whether the file at a slot has this name.
pub fn named(volume: &[u8], store: Store, slot: usize, len: usize, name: &[u8]) -> bool
    requires { (64 ≤ sectors_of volume.now) × (slot < 64) × (len ≤ 40) }
    ensures { result ≡ same_bytes name.now (part 0 len (entry_at volume.now store slot)) }
{
    runs::same(name, name_at(volume, store, slot, len))
}

// Whether it is in this directory.
pub fn is_in(volume: &[u8], store: Store, slot: usize, len: usize, dir: &[u8]) -> bool
    requires { (64 ≤ sectors_of volume.now) × (slot < 64) × (len ≤ 40) }
    ensures { result ≡ in_dir dir.now (part 0 len (entry_at volume.now store slot)) }
{
    names::in_dir(dir, name_at(volume, store, slot, len))
}

// Where a file was found.
#[derive(Clone, Copy)]
pub struct Found {
    pub slot: usize,
    pub id: u32,
}

// The first file whose id and name a test takes, or `none`: later sectors are not read.
fn first<F: Fn(u32, &[u8]) -> bool>(
    volume: &[u8],
    medium: Medium,
    store: Store,
    takes: F,
    none: Error,
) -> Result<Found, Error>
    requires room { 64 ≤ sectors_of volume.now }
    requires callable { F.IsAlwaysCallable takes }
    ensures { (test : _) → Decides (F.post takes) test → result ≡ scan_of (first test none) volume.now medium store tt }
{
    for slot in 0..64 {
        if let Some(file) = slot_at(volume, medium, store, slot)? {
            if takes(file.id, name_at(volume, store, slot, file.len)) {
                return Ok(Found { slot, id: file.id });
            }
        }
    }
    Err(none)
}

// The file of this name.
pub fn find(volume: &[u8], medium: Medium, store: Store, name: &[u8]) -> Result<Found, Error>
    requires { 64 ≤ sectors_of volume.now }
    ensures { result ≡ find_of volume.now medium store name.now }
{
    first(
        volume,
        medium,
        store,
        |_, found| runs::same(name, found),
        Error::NotFound,
    )
}

// The file of this id, in the lowest slot of several.
pub fn find_id(volume: &[u8], medium: Medium, store: Store, id: u32) -> Result<Found, Error>
    requires { 64 ≤ sectors_of volume.now }
    ensures { result ≡ find_id_of volume.now medium store id }
{
    first(volume, medium, store, |found, _| found == id, Error::Lost)
}

// What create looks for: the name, and the lowest free slot.
#[derive(Clone, Copy)]
pub struct Seen {
    pub exists: bool,
    pub free: Option<usize>,
}

#[tactic(auto, unfolding(crate::specs::Scan::free_seen))]
fn free_seen(slot: usize, seen: Seen) -> Seen
    ensures { result ≡ free_seen slot seen }
{
    Seen {
        free: seen.free.or(Some(slot)),
        ..seen
    }
}

#[tactic(auto, unfolding(crate::specs::Scan::file_seen, le::specs::Choice::pick))]
fn file_seen(same: bool, seen: Seen) -> Seen
    ensures { result ≡ file_seen same seen }
{
    if same {
        Seen {
            exists: true,
            ..seen
        }
    } else {
        seen
    }
}

// All slots are read, whatever is found.
pub fn look(volume: &[u8], medium: Medium, store: Store, name: &[u8]) -> Result<Seen, Error>
    requires { 64 ≤ sectors_of volume.now }
    ensures { result ≡ look_of volume.now medium store name.now }
{
    let mut seen = Seen {
        exists: false,
        free: None,
    };
    for slot in 0..64 {
        seen = match slot_at(volume, medium, store, slot)? {
            None => free_seen(slot, seen),
            Some(file) => file_seen(named(volume, store, slot, file.len, name), seen),
        };
    }
    Ok(seen)
}

// The oldest file so far: its slot, its id and the length of its name.
#[derive(Clone, Copy)]
pub struct Old {
    pub slot: usize,
    pub id: u32,
    pub len: usize,
}

// Whether a file of this id is older than the oldest so far.
fn is_older(id: u32, old: Option<Old>) -> bool
    ensures { result ≡ is_older id old }
{
    match old {
        None => true,
        Some(old) => id < old.id,
    }
}

// The older of a file and the oldest so far.
#[tactic(auto, unfolding(crate::specs::Scan::older_of, le::specs::Choice::pick))]
fn older(slot: usize, file: File, counts: bool, old: Option<Old>) -> Option<Old>
    ensures { result ≡ older_of slot file.id file.len counts old }
{
    if counts & is_older(file.id, old) {
        Some(Old {
            slot,
            id: file.id,
            len: file.len,
        })
    } else {
        old
    }
}

// The oldest file in a directory; a file of the id `spared` does not go.
pub fn oldest(
    volume: &[u8],
    medium: Medium,
    store: Store,
    dir: &[u8],
    spared: Option<u32>,
) -> Result<Option<Old>, Error>
    requires { 64 ≤ sectors_of volume.now }
    ensures { result ≡ oldest_of volume.now medium store dir.now spared }
{
    let mut old = None;
    for slot in 0..64 {
        if let Some(file) = slot_at(volume, medium, store, slot)? {
            let counts = is_in(volume, store, slot, file.len, dir) & (Some(file.id) != spared);
            old = older(slot, file, counts, old);
        }
    }
    Ok(old)
}

// Row `count` of the lent rows: the name with zeros to 40, the id and the chunks.
fn put_row(rows: &mut [u8], count: usize, name: &[u8], id: u32, chunks: u16)
    requires { (48 * count + 48 ≤ length rows.old) × (count < 64) × (length name.now ≤ 40) }
    ensures { rows.new ≡ over (48 * count) (row_of name.now id chunks) rows.old }
{
    let at = 48 * count;
    let len = name.len();
    runs::put_bytes(rows, at, name);
    runs::put_zeros(rows, at + len, 40 - len);
    le::put_u32(rows, at + 40, id);
    le::put_u32(rows, at + 44, chunks as u32);
}

// How a list ended, and the rows made: those made before a refusal stay and are counted, so the count stands beside the outcome.
#[derive(Clone, Copy)]
pub struct Rows {
    pub outcome: Result<(), Error>,
    pub count: usize,
}

// Fills the rows of the files in a directory, in slot order; those made before a refusal stay.
pub fn list_rows(
    volume: &[u8],
    medium: Medium,
    store: Store,
    dir: &[u8],
    counts: &[u16],
    rows: &mut [u8],
) -> Rows
    requires { (64 ≤ sectors_of volume.now) × (64 ≤ length counts.now) × (3072 ≤ length rows.old) }
    ensures { rows_told result rows.new ≡ rows_of volume.now medium store dir.now counts.now rows.old }
{
    let mut count: usize = 0;
    for slot in 0..64 {
        let found = match slot_at(volume, medium, store, slot) {
            Ok(found) => found,
            Err(e) => {
                return Rows {
                    outcome: Err(e),
                    count,
                };
            }
        };
        if let Some(file) = found {
            let name = name_at(volume, store, slot, file.len);
            if names::in_dir(dir, name) {
                put_row(rows, count, name, file.id, counts[slot]);
                count += 1;
            }
        }
    }
    Rows {
        outcome: Ok(()),
        count,
    }
}
