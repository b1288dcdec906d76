// The free chunk and the free count, by the map of the store value or by a walk of the links; and the map made of the links.
ghost use Rattle.std.specs.Prelude.{◌≡◌, ◌<◌, ◌≤◌};
ghost use Rattle.medium.specs.Sector.{sectors_of};
ghost use Rattle.table.specs.Table.{walk_free_of};
ghost use Rattle.table.specs.Free.{checked_of, free_of, walk_count_of, free_count_of, map_at};

use super::{LinkAt, free_step, link_at, links};
use freemap::FreeMap;
use handles::Store;
use medium::{Error, Medium};

// Whether every table sector reads and passes its checksum.
fn checked(volume: &[u8], medium: Medium, store: Store) -> Result<(), Error>
    requires { (64 ≤ sectors_of volume.now) × (store.head.chunks ≤ 2048) }
    ensures { result ≡ checked_of volume.now medium store }
{
    for t in 0..handles::table(store.head.chunks) {
        handles::check(store, volume, medium, 8 + t)?;
    }
    Ok(())
}

// The first free chunk at or after the cursor, going round, by the links.
fn walk_free(volume: &[u8], medium: Medium, store: Store) -> Result<Option<u32>, Error>
    requires { (64 ≤ sectors_of volume.now) × (store.head.chunks ≤ 2048) × (store.head.cursor < store.head.chunks) }
    ensures { result ≡ walk_free_of volume.now medium store }
{
    let mut best = None;
    for i in 0..links(store.head.chunks) {
        if let LinkAt::Free = link_at(volume, medium, store, i)? {
            best = free_step(store.head.cursor, store.head.chunks, i, best);
        }
    }
    Ok(best)
}

// The chunk that the next link takes: the first that the map marks at or after the cursor, going round; with an unfit map, the walk's. The
// table must pass its checksums all the same, so that a refusal comes where the walk has it.
#[tactic(auto, using(crate::proofs::Ways::by_refusal, crate::proofs::Ways::by_map), unfolding(crate::specs::Free::pick_of, le::specs::Choice::pick, medium::specs::Refusal::on_done, crate::specs::Free::free_of))]
pub fn free_chunk(volume: &[u8], medium: Medium, store: Store) -> Result<Option<u32>, Error>
    requires { (64 ≤ sectors_of volume.now) × (store.head.chunks ≤ 2048) × (store.head.cursor < store.head.chunks) }
    ensures { result ≡ free_of volume.now medium store }
{
    if store.free.fit {
        checked(volume, medium, store)?;
        let chunk = freemap::choose(store.free.words, store.head.cursor);
        Ok((chunk < 2048).then_some(chunk))
    } else {
        walk_free(volume, medium, store)
    }
}

// How many chunks are free, by the links.
fn walk_count(volume: &[u8], medium: Medium, store: Store) -> Result<u32, Error>
    requires { (64 ≤ sectors_of volume.now) × (store.head.chunks ≤ 2048) }
    ensures { result ≡ walk_count_of volume.now medium store }
{
    let mut count: u32 = 0;
    for i in 0..links(store.head.chunks) {
        if let LinkAt::Free = link_at(volume, medium, store, i)? {
            count += 1;
        }
    }
    Ok(count)
}

// How many chunks are free: as many as the map marks, where the table passes its checksums; with an unfit map, as many as the walk meets.
pub fn free_count(volume: &[u8], medium: Medium, store: Store) -> Result<u32, Error>
    requires { (64 ≤ sectors_of volume.now) × (store.head.chunks ≤ 2048) }
    ensures { result ≡ free_count_of volume.now medium store }
{
    if store.free.fit {
        checked(volume, medium, store).map(|()| freemap::count(store.free.words))
    } else {
        walk_count(volume, medium, store)
    }
}

// The map of the table as its links are: unfit where a sector or a link is refused.
pub fn map_at(volume: &[u8], medium: Medium, store: Store) -> FreeMap
    requires { (64 ≤ sectors_of volume.now) × (store.head.chunks ≤ 2048) }
    ensures { result ≡ map_at volume.now medium store }
{
    let mut words = [0u64; 32];
    for i in 0..links(store.head.chunks) {
        let Ok(link) = link_at(volume, medium, store, i) else {
            return freemap::unfit();
        };
        if let LinkAt::Free = link {
            freemap::put(&mut words, i, true);
        }
    }
    FreeMap { fit: true, words }
}
