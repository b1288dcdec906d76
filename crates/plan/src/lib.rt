// What a commit is to do: the edits, which the Rust passes as closures, and the answers of writing a copy anew.
#![tactic(auto)]

mod map;

ghost use Rattle.std.specs.Prelude.{◌≡◌, ◌≤◌, ◌<◌, ◌+◌, ◌*◌, ◌%◌, ◌^◌, length};
ghost use Rattle.le.specs.Choice.{pick};
ghost use Rattle.le.specs.Part.{zeros};
ghost use Rattle.directory.specs.Entry.{entry_bytes};
ghost use Rattle.plan.specs.Edit.{Fits, changes_of, entry_put, link_put, plain_link, partial_link, slot_cleared, edit_of, next_after, cursor_after, head_after};

use handles::{Header, Store};
pub use map::map_after;
use medium::{Error, Medium};
use table::Link;

// A new store; a file's entry and its first link; a file's next link, and where `partial` the mark of its last chunk with its records; a file
// removed, with every link of its slot.
#[derive(Clone, Copy)]
pub enum Edit {
    Format,
    Create {
        slot: usize,
        id: u32,
        chunk: u32,
    },
    Extend {
        slot: usize,
        position: u32,
        next: u32,
        last: u32,
        partial: bool,
        records: u32,
    },
    Remove {
        slot: usize,
    },
}

// Body sectors written, or left: the header so far.
#[derive(Clone, Copy)]
pub struct BodyWritten {
    pub outcome: Result<(), Error>,
    pub medium: Medium,
    pub head: Header,
}

// A copy written: the store of the last finished commit.
#[derive(Clone, Copy)]
pub struct Committed {
    pub outcome: Result<(), Error>,
    pub medium: Medium,
    pub store: Store,
}

// Whether body sector `k` is among those that change.
pub fn changes(edit: Edit, k: usize) -> bool
    ensures { result ≡ changes_of edit k }
{
    match edit {
        Edit::Format => true,
        Edit::Create { slot, id: _, chunk } => (k == slot / 8) | (k == 8 + (chunk as usize) / 128),
        Edit::Extend {
            slot: _,
            position: _,
            next,
            last,
            partial,
            records: _,
        } => (k == 8 + (next as usize) / 128) | (partial & (k == 8 + (last as usize) / 128)),
        Edit::Remove { slot } => (k == slot / 8) | (8 <= k),
    }
}

// The entry of a new file, where sector `k` has its slot.
fn put_file(k: usize, slot: usize, name: &[u8], id: u32, sector: &mut [u8])
    requires { (length sector.old ≡ 512) × (length name.now ≤ 40) }
    ensures { sector.new ≡ entry_put k slot (entry_bytes name.now id) sector.old }
{
    if k != slot / 8 {
        return;
    }
    let a = 64 * (slot % 8);
    let e = a + 64;
    directory::put_entry(&mut sector[a..e], name, id);
}

// The entry of a slot cleared, where sector `k` has it.
fn clear_file(k: usize, slot: usize, sector: &mut [u8])
    requires { length sector.old ≡ 512 }
    ensures { sector.new ≡ entry_put k slot (zeros 64) sector.old }
{
    if k != slot / 8 {
        return;
    }
    runs::put_zeros(sector, 64 * (slot % 8), 64);
}

fn plain_link(slot: usize, position: u32) -> Link
    ensures { result ≡ plain_link slot position }
{
    Link {
        slot,
        position,
        partial: false,
        records: 0,
    }
}

fn partial_link(slot: usize, position: u32, records: u32) -> Link
    ensures { result ≡ partial_link slot position records }
{
    Link {
        slot,
        position,
        partial: true,
        records,
    }
}

// The link of a chunk, where sector `k` has it.
fn put_link(k: usize, chunk: u32, link: Link, sector: &mut [u8])
    requires { (length sector.old ≡ 512) × (link.slot < 64) × (link.position < 32768) × (link.records < 512) }
    ensures { sector.new ≡ link_put k chunk link sector.old }
{
    if k != 8 + (chunk as usize) / 128 {
        return;
    }
    table::put_link(sector, chunk, link);
}

// The partial mark of a file's last chunk, where it is one.
fn mark(partial: bool, k: usize, chunk: u32, link: Link, sector: &mut [u8])
    requires { (length sector.old ≡ 512) × (link.slot < 64) × (link.position < 32768) × (link.records < 512) }
    ensures { sector.new ≡ pick partial (link_put k chunk link sector.old) sector.old }
{
    if partial {
        put_link(k, chunk, link, sector);
    }
}

// The slot cleared: its entry, or in a table sector every link of it.
fn clear_slot(k: usize, slot: usize, sector: &mut [u8])
    requires { (length sector.old ≡ 512) × (slot < 64) }
    ensures { sector.new ≡ slot_cleared k slot sector.old }
{
    if 8 <= k {
        table::clear_links(sector, slot);
        return;
    }
    clear_file(k, slot, sector);
}

// Makes the edit in body sector `k`.
fn apply(edit: Edit, name: &[u8], k: usize, chunks: u32, sector: &mut [u8])
    requires { (length sector.old ≡ 512) × (length name.now ≤ 40) × (Fits edit chunks) }
    ensures { sector.new ≡ edit_of edit name.now k sector.old }
{
    match edit {
        Edit::Format => {
            runs::put_zeros(sector, 0, 512);
        }
        Edit::Create { slot, id, chunk } => {
            put_file(k, slot, name, id, sector);
            put_link(k, chunk, plain_link(slot, 0), sector);
        }
        Edit::Extend {
            slot,
            position,
            next,
            last,
            partial,
            records,
        } => {
            put_link(k, next, plain_link(slot, position + 1), sector);
            let old = partial_link(slot, position, records);
            mark(partial, k, last, old, sector);
        }
        Edit::Remove { slot } => {
            clear_slot(k, slot, sector);
        }
    }
}

// The sector as it is to be: edited where it is among those that change.
pub fn edited(
    changing: bool,
    edit: Edit,
    name: &[u8],
    k: usize,
    chunks: u32,
    sector: &mut [u8; 512],
)
    requires { (length name.now ≤ 40) × (Fits edit chunks) }
    ensures { sector.new ≡ pick changing (edit_of edit name.now k sector.old) sector.old }
{
    if changing {
        apply(edit, name, k, chunks, sector);
    }
}

fn next_after(edit: Edit, head: Header) -> u32
    requires { Fits edit head.chunks }
    ensures { result ≡ next_after edit head }
{
    match edit {
        Edit::Format => head.next_id,
        Edit::Create {
            slot: _,
            id,
            chunk: _,
        } => id + 1,
        Edit::Extend {
            slot: _,
            position: _,
            next: _,
            last: _,
            partial: _,
            records: _,
        } => head.next_id,
        Edit::Remove { slot: _ } => head.next_id,
    }
}

fn cursor_after(edit: Edit, head: Header) -> u32
    requires { (Fits edit head.chunks) × (1 ≤ head.chunks) × (head.chunks ≤ 2048) }
    ensures { result ≡ cursor_after edit head }
{
    match edit {
        Edit::Format => head.cursor,
        Edit::Create {
            slot: _,
            id: _,
            chunk,
        } => (chunk + 1) % head.chunks,
        Edit::Extend {
            slot: _,
            position: _,
            next,
            last: _,
            partial: _,
            records: _,
        } => (next + 1) % head.chunks,
        Edit::Remove { slot: _ } => head.cursor,
    }
}

// The header of the next generation, its checksums still to be made.
pub fn head_after(edit: Edit, head: Header) -> Header
    requires { (Fits edit head.chunks) × (1 ≤ head.chunks) × (head.chunks ≤ 2048) × (head.generation + 1 < 2 ^ 64) }
    ensures { result ≡ head_after edit head }
{
    let next_id = next_after(edit, head);
    let cursor = cursor_after(edit, head);
    let mut after = head;
    after.generation = head.generation + 1;
    after.next_id = next_id;
    after.cursor = cursor;
    after
}
