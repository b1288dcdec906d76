// A file removed: by its slot, or as the oldest of a directory. What the Rust has as `Store::remove` and `remove_oldest`.
#![tactic(auto)]

ghost use Rattle.std.specs.Prelude.{◌≡◌, true, false, ◌<◌};
ghost use Rattle.le.specs.Part.{part};
ghost use Rattle.medium.specs.Sector.{sectors_of};
ghost use Rattle.handles.specs.Handles.{store_ok};
ghost use Rattle.directory.specs.Entry.{entry_at};
ghost use Rattle.remove.specs.Remove.{writer_without, closed_for, remove_of, none_gone, gone_of, remove_oldest_of};

use directory::Old;
use handles::{Store, Writer};
use medium::{Error, Medium};
use plan::{Committed, Edit};

// What removing the oldest gives: whether a file went, and its name, with zeros to 40, where one did.
#[derive(Clone, Copy)]
pub struct Gone {
    pub outcome: Result<(), Error>,
    pub medium: Medium,
    pub store: Store,
    pub any: bool,
    pub name: [u8; 40],
    pub length: usize,
}

// The open appender, unless it is this file's.
fn writer_without(id: u32, writer: Option<Writer>) -> Option<Writer>
    ensures { result ≡ writer_without id writer }
{
    let open = writer?;
    if open.id == id { None } else { writer }
}

fn closed_for(id: u32, store: Store) -> Store
    ensures { result ≡ closed_for id store }
{
    let held = store.writer;
    let head = store.head;
    let writer = writer_without(id, held);
    let free = store.free;
    Store {
        copy: store.copy,
        head,
        writer,
        free,
    }
}

// Removes the file of a slot, whose id is given: its entry and all its links in one commit.
pub fn remove(volume: &mut [u8], medium: Medium, store: Store, slot: usize, id: u32) -> Committed
    requires { (store_ok store (sectors_of volume.old) ≡ true) × (slot < 64) }
    ensures { (volume.new ≡ (remove_of volume.old medium store slot id).vol)
        × (result ≡ (remove_of volume.old medium store slot id).ans) }
{
    let none = [0u8; 1];
    let edit = Edit::Remove { slot };
    let c = commit::commit(volume, medium, store, edit, &none[0..0]);
    let o = c.outcome;
    let m = c.medium;
    let s = c.store;
    if let Err(_) = o {
        return c;
    }
    let after = closed_for(id, s);
    Committed {
        outcome: Ok(()),
        medium: m,
        store: after,
    }
}

// No file went.
pub fn none_gone(outcome: Result<(), Error>, medium: Medium, store: Store) -> Gone
    ensures { result ≡ none_gone outcome medium store }
{
    Gone {
        outcome,
        medium,
        store,
        any: false,
        name: [0u8; 40],
        length: 0,
    }
}

// The file that was found goes. Its name is read before the commit.
fn take_away(volume: &mut [u8], medium: Medium, store: Store, old: Old) -> Gone
    requires { (store_ok store (sectors_of volume.old) ≡ true) × (old.slot < 64) }
    ensures { (volume.new
        ≡ (gone_of (part 0 40 (entry_at volume.old store old.slot)) old.len
        (remove_of volume.old medium store old.slot old.id)).vol)
        × (result
        ≡ (gone_of (part 0 40 (entry_at volume.old store old.slot)) old.len
        (remove_of volume.old medium store old.slot old.id)).ans) }
{
    let mut name = [0u8; 40];
    let a = directory::entry_place(store.copy, old.slot);
    runs::put_bytes(&mut name, 0, &volume[a..a + 40]);
    let c = remove(volume, medium, store, old.slot, old.id);
    let o = c.outcome;
    let m = c.medium;
    let s = c.store;
    if let Err(e) = o {
        return none_gone(Err(e), m, s);
    }
    Gone {
        outcome: Ok(()),
        medium: m,
        store: s,
        any: true,
        name,
        length: old.len,
    }
}

// Removes the oldest file of a directory; a file of the id `spared` does not go. That there is none is no refusal here.
pub fn remove_oldest(
    volume: &mut [u8],
    medium: Medium,
    store: Store,
    dir: &[u8],
    spared: Option<u32>,
) -> Gone
    requires { store_ok store (sectors_of volume.old) ≡ true }
    ensures { (volume.new ≡ (remove_oldest_of volume.old medium store dir.now spared).vol)
        × (result ≡ (remove_oldest_of volume.old medium store dir.now spared).ans) }
{
    match directory::oldest(&volume[..], medium, store, dir, spared) {
        Err(e) => none_gone(Err(e), medium, store),
        Ok(None) => none_gone(Ok(()), medium, store),
        Ok(Some(old)) => take_away(volume, medium, store, old),
    }
}
