// The store value that a caller holds between calls, the tests of 01's refusal 3 on it, and the check of a body sector.
#![tactic(auto)]

ghost use Rattle.std.specs.Prelude.{◌≡◌, ◌+◌, ◌*◌, ◌<◌, ◌≤◌};
ghost use Rattle.medium.specs.Sector.{sectors_of};
ghost use Rattle.handles.specs.Handles.{blank_of, no_store, table_of, body_of, base_of, sane_of, store_ok, open_file, is_open, open_id};
ghost use Rattle.handles.specs.Body.{check_of, due_of};

use freemap::FreeMap;
use medium::{Error, Medium};

// One copy's header: store id, generation, next file id, allocation cursor, chunks, sectors per chunk, and one checksum for each body sector.
#[derive(Clone, Copy, Debug, PartialEq, Eq)]
pub struct Header {
    pub id: u64,
    pub generation: u64,
    pub next_id: u32,
    pub cursor: u32,
    pub chunks: u32,
    pub chunk: u32,
    pub crcs: [u32; 24],
}

// The appender that the store opened last: its token, and the id of its file.
#[derive(Clone, Copy)]
pub struct Writer {
    pub token: u32,
    pub id: u32,
}

// The mounted metadata: the current copy, its header, the open appender and the map of free chunks.
#[derive(Clone, Copy)]
pub struct Store {
    pub copy: u64,
    pub head: Header,
    pub writer: Option<Writer>,
    pub free: FreeMap,
}

// A header of zeros, where there is none.
pub fn blank() -> Header
    ensures { result ≡ blank_of }
{
    Header {
        id: 0,
        generation: 0,
        next_id: 0,
        cursor: 0,
        chunks: 0,
        chunk: 0,
        crcs: [0u32; 24],
    }
}

// What a refused mount or format holds in the place of a store: a value that no call accepts.
pub fn no_store() -> Store
    ensures { result ≡ no_store }
{
    Store {
        copy: 0,
        head: blank(),
        writer: None,
        free: freemap::unfit(),
    }
}

// The file that is open, if one is: extending and delete_oldest spare it.
pub fn open_file(writer: Option<Writer>) -> Option<u32>
    ensures { result ≡ open_file writer }
{
    is_open(writer).then_some(open_id(writer))
}

// Whether a file is open, and its id.
pub fn is_open(writer: Option<Writer>) -> bool
    ensures { result ≡ is_open writer }
{
    writer.is_some()
}

pub fn open_id(writer: Option<Writer>) -> u32
    ensures { result ≡ open_id writer }
{
    writer.map_or(0, |open| open.id)
}

// Table sectors of so many chunks.
pub fn table(chunks: u32) -> usize
    ensures { result ≡ table_of chunks }
{
    (chunks as usize).div_ceil(128)
}

// Body sectors of so many chunks: the directory and the table.
pub fn body(chunks: u32) -> usize
    ensures { result ≡ body_of chunks }
{
    8 + table(chunks)
}

// The header sector of a copy.
pub fn base(copy: u64) -> u64
    ensures { (result ≡ base_of copy) × (result ≤ 32) }
{
    if copy == 0 { 0 } else { 32 }
}

// What the numbers of a header must meet on a volume of so many sectors.
pub fn sane(head: Header, sectors: u64) -> bool
    ensures { result ≡ sane_of head sectors }
{
    let all = 64 + (head.chunks as u64) * (head.chunk as u64);
    // `&`, since these are cheap tests without a jump, and the definition says them in this order
    (head.id != 0)
        & ((head.next_id != 0)
            & ((head.cursor < head.chunks)
                & (((1 <= head.chunks) & (head.chunks <= 2048))
                    & (((1 <= head.chunk) & (head.chunk <= 512)) & (all <= sectors)))))
}

impl Store {
    // Changes with every commit and format.
    pub fn generation(self) -> u64
        ensures { result ≡ self.head.generation }
    {
        self.head.generation
    }

    pub fn store_id(self) -> u64
        ensures { result ≡ self.head.id }
    {
        self.head.id
    }

    // Data chunks in the volume.
    pub fn chunks(self) -> u32
        ensures { result ≡ self.head.chunks }
    {
        self.head.chunks
    }

    // Record sectors per chunk.
    pub fn chunk_sectors(self) -> u32
        ensures { result ≡ self.head.chunk }
    {
        self.head.chunk
    }

    // Refusal 3 on a store value.
    pub fn handle_ok(self, sectors: u64) -> bool
        ensures { result ≡ store_ok self sectors }
    {
        // `&`, as in `sane`: by `&&` the proof would name the test, and an edit of it would be refused for that alone
        (self.copy < 2) & (sane(self.head, sectors) & freemap::map_ok(self.free, self.head.chunks))
    }
}

// Whether body sector `k` reads and passes its checksum.
pub fn check(store: Store, volume: &[u8], medium: Medium, k: usize) -> Result<(), Error>
    requires { (64 ≤ sectors_of volume.now) × (k < 24) }
    ensures { result ≡ check_of volume.now medium store k }
{
    let at = base(store.copy) + 1 + (k as u64);
    medium::readable(medium, at)?;
    let start = 512 * (at as usize);
    // the header by itself: indexed where it stands, the compiler keeps a second store value on the stack of every walk
    let head = store.head;
    if checksum::crc32(&volume[start..start + 512]) == head.crcs[k] {
        Ok(())
    } else {
        Err(Error::Corrupt)
    }
}

// The check of body sector `k` where a walk enters it.
pub fn due(store: Store, volume: &[u8], medium: Medium, enters: bool, k: usize) -> Result<(), Error>
    requires { (64 ≤ sectors_of volume.now) × (k < 24) }
    ensures { result ≡ due_of volume.now medium store enters k }
{
    if enters {
        check(store, volume, medium, k)
    } else {
        Ok(())
    }
}
