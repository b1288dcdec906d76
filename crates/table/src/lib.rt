// The links of the chunk table, and the walks over it: a file's chain, the chunk of a position, and the chunks of each slot; `free` has the free chunk's.
#![tactic(auto)]

mod free;

ghost use Rattle.std.specs.Prelude.{◌≡◌, ℕ, ◌+◌, ◌*◌, ◌%◌, ◌<◌, ◌≤◌, length, get_or};
ghost use Rattle.le.specs.Part.{over};
ghost use Rattle.medium.specs.Sector.{sectors_of};
ghost use Rattle.table.specs.Link.{place_of, link_bytes, link_of, link_part, link_at, owned_by, clear_link, cleared_of};
ghost use Rattle.table.specs.Table.{links_of, Before, locate_of, first_step, chain_more, chain_end, chain_of, free_step, count_of};

pub use free::{free_chunk, free_count, map_at};
use handles::Store;
use medium::{Error, Medium};

// What a chunk's link says: its file's slot, its place in the file, and the records of a chunk that the file left before it was full. The mark and
// the records stay two fields: one Option could not say records without the mark, which `put_link` writes too.
#[derive(Clone, Copy)]
pub struct Link {
    pub slot: usize,
    pub position: u32,
    pub partial: bool,
    pub records: u32,
}

// What the table says of a chunk; `Past`: a zero link past the last chunk.
#[derive(Clone, Copy)]
pub enum LinkAt {
    Past,
    Free,
    Linked(Link),
}

// The second number of a link: the position, and the mark of a partial chunk.
#[tactic(auto, unfolding(crate::specs::Link::place_of, le::specs::Choice::pick))]
fn marked(link: Link) -> u16
    requires { link.position < 32768 }
    ensures { result ≡ place_of link }
{
    let position = link.position as u16;
    if link.partial {
        position + 32768
    } else {
        position
    }
}

// Writes the link of `chunk` in its sector of the table.
pub fn put_link(sector: &mut [u8], chunk: u32, link: Link)
    requires { (length sector.old ≡ 512) × (link.slot < 64) × (link.position < 32768) × (link.records < 512) }
    ensures { sector.new ≡ over (4 * (chunk % 128)) (link_bytes link) sector.old }
{
    let at = 4 * ((chunk % 128) as usize);
    let owner = ((link.slot as u32) + 1 + 128 * link.records) as u16;
    le::put_u16(sector, at, owner);
    le::put_u16(sector, at + 2, marked(link));
}

// Zeroes the link at `i` where its owner is `slot`; nothing else of the link is looked at.
fn clear_link(sector: &mut [u8], slot: usize, i: usize)
    requires { (length sector.old ≡ 512) × (slot < 64) × (i < 128) }
    ensures { sector.new ≡ clear_link slot i sector.old }
{
    let owner = le::get_u16(sector, 4 * i);
    if ((owner % 128) as usize) == slot + 1 {
        runs::put_zeros(sector, 4 * i, 4);
    }
}

// Zeroes every link of `slot` in a sector of the table.
pub fn clear_links(sector: &mut [u8], slot: usize)
    requires { (length sector.old ≡ 512) × (slot < 64) }
    ensures { sector.new ≡ cleared_of slot sector.old }
{
    for i in 0..128 {
        clear_link(sector, slot, i);
    }
}

// A link's two numbers, of a chunk inside the store or past its last.
#[tactic(auto, unfolding(crate::specs::Link::link_of, crate::specs::Link::link_fits, le::specs::Choice::pick))]
fn link_of(owner: u16, place: u16, inside: bool, size: u32) -> Result<LinkAt, Error>
    ensures { result ≡ link_of owner place inside size }
{
    if owner == 0 && place == 0 {
        return Ok(if inside { LinkAt::Free } else { LinkAt::Past });
    }
    let low = owner % 128;
    let records = (owner / 128) as u32;
    let partial = 32768 <= place;
    let fits = 1 <= low && low <= 64 && records < size && (partial || records == 0);
    if inside && fits {
        Ok(LinkAt::Linked(Link {
            slot: (low - 1) as usize,
            position: (place % 32768) as u32,
            partial,
            records,
        }))
    } else {
        Err(Error::Corrupt)
    }
}

// What the table says of `chunk`.
pub fn link_at(volume: &[u8], medium: Medium, store: Store, chunk: u32) -> Result<LinkAt, Error>
    requires { (64 ≤ sectors_of volume.now) × (chunk < 2048) }
    ensures { result ≡ link_at volume.now medium store chunk }
{
    handles::due(
        store,
        volume,
        medium,
        chunk % 128 == 0,
        8 + (chunk / 128) as usize,
    )?;
    let at = 512 * ((handles::base(store.copy) + 9) as usize) + 4 * (chunk as usize);
    let owner = le::get_u16(volume, at);
    let place = le::get_u16(volume, at + 2);
    link_of(owner, place, chunk < store.head.chunks, store.head.chunk)
}

// Whether the link of `chunk` has `slot` as its owner; nothing else of the link is looked at. A commit that finishes has read and checked the sector.
pub fn owned(volume: &[u8], store: Store, chunk: u32, slot: usize) -> bool
    requires { (64 ≤ sectors_of volume.now) × (chunk < 2048) × (slot < 64) }
    ensures { result ≡ owned_by slot (link_part volume.now store chunk) }
{
    let at = 512 * ((handles::base(store.copy) + 9) as usize) + 4 * (chunk as usize);
    let owner = le::get_u16(volume, at);
    ((owner % 128) as usize) == slot + 1
}

// Links in the table's sectors. Each walk over them is a loop of its own: a walk that takes its step as a closure would also need what the step keeps
// (a count within the chunks passed, a pick before the next) as an argument of its contract.
fn links(chunks: u32) -> u32
    requires { chunks ≤ 2048 }
    ensures { (result ≡ links_of chunks) × (result ≤ 2048) }
{
    (chunks + 127) / 128 * 128
}

// The chunk that is linked to a slot at a position, with its link.
#[derive(Clone, Copy)]
pub struct Place {
    pub chunk: u32,
    pub link: Link,
}

// The chunk of `slot` at `position`; where several are, the highest.
pub fn locate(
    volume: &[u8],
    medium: Medium,
    store: Store,
    slot: usize,
    position: u32,
) -> Result<Place, Error>
    requires { (64 ≤ sectors_of volume.now) × (store.head.chunks ≤ 2048) }
    ensures { result ≡ locate_of volume.now medium store slot position }
{
    let mut found = None;
    for chunk in 0..links(store.head.chunks) {
        if let LinkAt::Linked(link) = link_at(volume, medium, store, chunk)? {
            if link.slot == slot && link.position == position {
                found = Some(Place { chunk, link });
            }
        }
    }
    found.ok_or(Error::Corrupt)
}

// What a walk has seen of a slot's chain: how many chunks, the chunk of position 0, the largest position and the lowest chunk that has it.
#[derive(Clone, Copy)]
pub struct ChainState {
    pub count: u32,
    pub first: Option<Place>,
    pub top: u32,
    pub last: u32,
}

// A file's chunks: how many, the first with its partial mark and records, and the last.
#[derive(Clone, Copy)]
pub struct ChainParts {
    pub count: u32,
    pub first: u32,
    pub partial: bool,
    pub records: u32,
    pub last: u32,
}

// The chunk of position 0 so far, after chunk `i` with the link `l`.
#[tactic(auto, unfolding(crate::specs::Table::first_step, le::specs::Choice::pick))]
fn first_step(i: u32, l: Link, first: Option<Place>) -> Option<Place>
    ensures { result ≡ first_step i l first }
{
    if l.position == 0 {
        Some(Place { chunk: i, link: l })
    } else {
        first
    }
}

// The chain so far, after its chunk `i` with the link `l`.
#[tactic(auto, unfolding(crate::specs::Table::chain_more, le::specs::Choice::pick))]
fn chain_step(i: u32, l: Link, s: ChainState) -> ChainState
    requires { s.count < 2048 }
    ensures { result ≡ chain_more i l s }
{
    let first = first_step(i, l, s.first);
    let count = s.count + 1;
    if s.count == 0 || s.top < l.position {
        ChainState {
            count,
            first,
            top: l.position,
            last: i,
        }
    } else {
        ChainState { count, first, ..s }
    }
}

// Whether the chunks seen are a chain.
#[tactic(auto, unfolding(crate::specs::Table::chain_end, le::specs::Choice::pick))]
fn chain_end(s: ChainState) -> Result<ChainParts, Error>
    ensures { result ≡ chain_end s }
{
    let Place { chunk, link } = s.first.ok_or(Error::Corrupt)?;
    if (s.top as u64) + 1 != s.count as u64 {
        return Err(Error::Corrupt);
    }
    Ok(ChainParts {
        count: s.count,
        first: chunk,
        partial: link.partial,
        records: link.records,
        last: s.last,
    })
}

// The chain of `slot`.
pub fn chain(volume: &[u8], medium: Medium, store: Store, slot: usize) -> Result<ChainParts, Error>
    requires { (64 ≤ sectors_of volume.now) × (store.head.chunks ≤ 2048) }
    ensures { result ≡ chain_of volume.now medium store slot }
{
    let mut s = ChainState {
        count: 0,
        first: None,
        top: 0,
        last: 0,
    };
    for i in 0..links(store.head.chunks) {
        if let LinkAt::Linked(l) = link_at(volume, medium, store, i)? {
            if l.slot == slot {
                s = chain_step(i, l, s);
            }
        }
    }
    chain_end(s)
}

// The nearer of the best free chunk so far and the free chunk `i` after it. Of two chunks in order the later is nearer only where the
// cursor lies between them, so no distance is computed.
#[tactic(auto, using(crate::proofs::Nearest::later_near, crate::proofs::Nearest::later_far), unfolding(crate::specs::Table::free_step))]
fn free_step(cursor: u32, chunks: u32, i: u32, best: Option<u32>) -> Option<u32>
    requires { (cursor < chunks) × (i < chunks) × Before i best }
    ensures { result ≡ free_step cursor chunks i best }
{
    match best {
        Some(b) if cursor <= b || i < cursor => Some(b),
        _ => Some(i),
    }
}

// Adds the chunks that are linked to each slot to the counts, which the caller cleared; a refusal keeps what was counted before it.
pub fn count(volume: &[u8], medium: Medium, store: Store, counts: &mut [u16]) -> Result<(), Error>
    requires { (64 ≤ sectors_of volume.now) × (store.head.chunks ≤ 2048) × (64 ≤ length counts.old) × ((k : ℕ) → k < 64 → get_or counts.old k 0 ≡ 0) }
    ensures { (result ≡ (count_of volume.now medium store counts.old).outcome)
        × (counts.new ≡ (count_of volume.now medium store counts.old).counts) }
{
    for chunk in 0..links(store.head.chunks) {
        if let LinkAt::Linked(link) = link_at(volume, medium, store, chunk)? {
            counts[link.slot] += 1;
        }
    }
    Ok(())
}
