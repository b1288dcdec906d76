// The map of free chunks after an edit (S-3).
ghost use Rattle.std.specs.Prelude.{◌≡◌, true, false, not, ◌&&◌, ◌||◌, ◌<◌, ◌≤◌, eqb, ltb};
ghost use Rattle.le.specs.Choice.{pick};
ghost use Rattle.medium.specs.Sector.{sectors_of};
ghost use Rattle.freemap.specs.Map.{marks, map_of, put_of};
ghost use Rattle.table.specs.Link.{link_part, owned_by};
ghost use Rattle.plan.specs.Edit.{Fits};
ghost use Rattle.plan.specs.Copy.{is_format, map_after};

use super::Edit;
use freemap::FreeMap;
use handles::Store;

// The bit of the chunk that is linked cleared, and that of the file's last chunk where its link is written too.
fn taken(words: [u64; 32], next: u32, partial: bool, last: u32) -> FreeMap
    requires { (next < 2048) × (last < 2048) }
    ensures { result ≡ map_of (λ c. marks words c && not (eqb c next || (partial && eqb c last))) }
{
    let mut after = words;
    freemap::put(&mut after, next, false);
    if partial {
        freemap::put(&mut after, last, false);
    }
    FreeMap {
        fit: true,
        words: after,
    }
}

// The bit of a chunk set, where its link has `slot` as its owner.
fn free_link(volume: &[u8], store: Store, slot: usize, chunk: u32, words: &mut [u64; 32])
    requires { (64 ≤ sectors_of volume.now) × (chunk < 2048) × (slot < 64) }
    ensures { words.new
        ≡ pick (owned_by slot (link_part volume.now store chunk)) (put_of words.old chunk true) words.old }
{
    if table::owned(volume, store, chunk, slot) {
        freemap::put(words, chunk, true);
    }
}

// The bits of the slot's chunks set: every link of it is zeroed.
fn freed(volume: &[u8], store: Store, slot: usize) -> FreeMap
    requires { (64 ≤ sectors_of volume.now) × (store.head.chunks ≤ 2048) × (slot < 64) }
    ensures { result
        ≡ map_of (λ c. marks store.free.words c || (ltb c store.head.chunks && owned_by slot (link_part volume.now store c))) }
{
    let h = store.head;
    let map = store.free;
    let mut words = map.words;
    for c in 0..h.chunks {
        free_link(volume, store, slot, c, &mut words);
    }
    FreeMap { fit: true, words }
}

// The map after the edit: the bits of the links that it changes; an unfit one stays as it is.
pub fn map_after(volume: &[u8], store: Store, edit: Edit) -> FreeMap
    requires { (64 ≤ sectors_of volume.now) × (store.head.chunks ≤ 2048) × (Fits edit store.head.chunks) × (is_format edit ≡ false) }
    ensures { result ≡ map_after edit volume.now store store.head.chunks }
{
    let map = store.free;
    if !map.fit {
        return map;
    }
    let words = map.words;
    match edit {
        // never asked: format makes its own map
        Edit::Format => map,
        Edit::Create {
            slot: _,
            id: _,
            chunk,
        } => taken(words, chunk, false, 0),
        Edit::Extend {
            slot: _,
            position: _,
            next,
            last,
            partial,
            records: _,
        } => taken(words, next, partial, last),
        Edit::Remove { slot } => freed(volume, store, slot),
    }
}
