// A file opened to append: what the Rust has as `open_append`. It only reads.
#![tactic(auto)]

ghost use Rattle.std.specs.Prelude.{◌≡◌, true, ◌≤◌, ◌<◌};
ghost use Rattle.medium.specs.Sector.{sectors_of};
ghost use Rattle.handles.specs.Handles.{store_ok};
ghost use Rattle.record.specs.Record.{record_at};
ghost use Rattle.reopen.specs.Reopen.{records_from, tail_for, file_out, reopen_of};

use append::{Handed, Tail};
use files::Rollover;
use handles::Store;
use medium::{Error, Medium};

// Record `index` of the chunk at `position` of a file, read and judged.
fn record_at(
    volume: &[u8],
    medium: Medium,
    store: Store,
    id: u32,
    chunk: u32,
    position: u32,
    index: u32,
) -> Result<Option<usize>, Error>
    requires { (store_ok store (sectors_of volume.now) ≡ true) × (chunk < store.head.chunks) × (position ≤ 2047) × (index < store.head.chunk) }
    ensures { result ≡ record_at volume.now medium store id chunk position index }
{
    let n = record::number_at(position, store.head.chunk, index);
    record::record(volume, medium, store, id, chunk, index, n)
}

// The records of a chunk, up to the last valid one. Counts from the top down, so that what is below the last valid record is not read.
fn count_records(
    volume: &[u8],
    medium: Medium,
    store: Store,
    id: u32,
    chunk: u32,
    position: u32,
) -> Result<u32, Error>
    requires { (store_ok store (sectors_of volume.now) ≡ true) × (chunk < store.head.chunks) × (position ≤ 2047) }
    ensures { result ≡ records_from volume.now medium store id chunk position store.head.chunk }
{
    for index in (0..store.head.chunk).rev() {
        let read = record_at(volume, medium, store, id, chunk, position, index)?;
        if read.is_some() {
            return Ok(index + 1);
        }
    }
    Ok(0)
}

// Where the next record goes: a chunk that was begun is not written further.
#[tactic(auto, unfolding(crate::specs::Reopen::tail_for, le::specs::Choice::pick))]
fn tail_for(size: u32, n: u32) -> Tail
    ensures { result ≡ tail_for size n }
{
    if n == 0 {
        Tail::At(0)
    } else if n == size {
        Tail::At(size)
    } else {
        Tail::Reopened(n)
    }
}

// An appender of the file `id` in `slot`. The records of its last chunk say where the next one goes.
fn open_file(
    volume: &[u8],
    medium: Medium,
    store: Store,
    slot: usize,
    id: u32,
    rollover: Rollover,
) -> Handed
    requires { store_ok store (sectors_of volume.now) ≡ true }
    ensures { result ≡ (file_out rollover volume.now medium store slot id).ans }
{
    let parts = match table::chain(volume, medium, store, slot) {
        Ok(parts) => parts,
        Err(e) => return files::refused(e, medium, store),
    };
    let position = parts.count - 1;
    match count_records(volume, medium, store, id, parts.last, position) {
        Ok(count) => {
            let tail = tail_for(store.head.chunk, count);
            files::opened(
                medium, store, slot, id, parts.last, position, tail, rollover,
            )
        }
        Err(e) => files::refused(e, medium, store),
    }
}

// An appender of the file `name`.
pub fn open_append(
    volume: &[u8],
    medium: Medium,
    store: Store,
    name: &[u8],
    rollover: Rollover,
) -> Handed
    requires { store_ok store (sectors_of volume.now) ≡ true }
    ensures { result ≡ (reopen_of name.now rollover volume.now medium store).ans }
{
    match directory::find(volume, medium, store, name) {
        Err(e) => files::refused(e, medium, store),
        Ok(found) => open_file(volume, medium, store, found.slot, found.id, rollover),
    }
}
