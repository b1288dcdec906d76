// The calls that only read, for a program in another language that keeps the handles between calls: the
// comparison with the Rust links bridge_c over this crate, and bridge_write_c for the calls that write. A slice crosses as a
// pointer and a length, an array as a pointer. Each function returns 0 or the number of the refusal. Of a
// number for a field of 32 bits the low 32 count.
//   medium: left, unreadable, entropy, token.
//   store: copy, id, generation, next id, cursor, chunks, sectors per chunk, writer (0 nobody, else
//     open), its token, its file id, whether its map of free chunks is fit (0 no, else yes), the map's 32
//     words. The 24 checksums of its header cross beside it.
//   reader: store id, generation, slot, id, chunks, chunk, end (0 the file's last chunk, else
//     known), the records there, position, index.
#![tactic(auto)]

pub mod numbers;

ghost use Rattle.std.specs.Prelude.{◌≡◌};
ghost use Rattle.bridge.specs.Calls.{mount_at, free_count_at, find_at, list_at, reader_at, next_at, seek_at, record_at};

// The store is all zeros where it is refused.
pub fn port_mount(
    volume: &[u8],
    medium: &mut [u64; 4],
    store: &mut [u64; 43],
    crcs: &mut [u32; 24],
) -> u32
    ensures { (result, store.new, crcs.new, medium.new) ≡ mount_at volume.now medium.old }
{
    let r = store::mount(volume, numbers::medium_in(*medium));
    numbers::put_told(r, store, crcs, medium)
}

// Answer: how many chunks are free (S-3).
pub fn port_free_count(
    volume: &[u8],
    medium: &mut [u64; 4],
    store: &[u64; 43],
    crcs: &[u32; 24],
    answer: &mut [u64; 3],
) -> u32
    ensures { (result, answer.new, medium.new)
        ≡ free_count_at volume.now medium.old store.now crcs.now }
{
    let r = store::free_count(
        volume,
        numbers::medium_in(*medium),
        numbers::store_in(*store, *crcs),
    );
    *medium = numbers::medium_words(r.medium);
    *answer = numbers::count_words(r.count);
    numbers::count_code(r.count)
}

// Answer: the slot and the file id.
pub fn port_find(
    volume: &[u8],
    medium: &mut [u64; 4],
    store: &[u64; 43],
    crcs: &[u32; 24],
    name: &[u8],
    answer: &mut [u64; 3],
) -> u32
    ensures { (result, answer.new, medium.new)
        ≡ find_at volume.now medium.old store.now crcs.now name.now }
{
    let r = store::find(
        volume,
        numbers::medium_in(*medium),
        numbers::store_in(*store, *crcs),
        name,
    );
    *medium = numbers::medium_words(r.medium);
    *answer = numbers::found_words(r.found);
    numbers::found_code(r.found)
}

// Answer: the number of rows, also where it is refused.
pub fn port_list(
    volume: &[u8],
    medium: &mut [u64; 4],
    store: &[u64; 43],
    crcs: &[u32; 24],
    dir: &[u8],
    counts: &mut [u16],
    rows: &mut [u8],
    answer: &mut [u64; 3],
) -> u32
    ensures { (result, answer.new, counts.new, rows.new, medium.new)
        ≡ list_at volume.now medium.old store.now crcs.now dir.now
        counts.old rows.old }
{
    let r = store::list(
        volume,
        numbers::medium_in(*medium),
        numbers::store_in(*store, *crcs),
        dir,
        counts,
        rows,
    );
    *medium = numbers::medium_words(r.medium);
    *answer = [r.count as u64, 0, 0];
    numbers::code(r.outcome)
}

// The reader is all zeros where it is refused.
pub fn port_reader(
    volume: &[u8],
    medium: &mut [u64; 4],
    store: &[u64; 43],
    crcs: &[u32; 24],
    name: &[u8],
    reader: &mut [u64; 10],
) -> u32
    ensures { (result, reader.new, medium.new)
        ≡ reader_at volume.now medium.old store.now crcs.now name.now }
{
    let r = store::reader(
        volume,
        numbers::medium_in(*medium),
        numbers::store_in(*store, *crcs),
        name,
    );
    *medium = numbers::medium_words(r.medium);
    *reader = numbers::reader_words(r.reader);
    numbers::code(r.outcome)
}

// Answer: 0 the end; 1 and the payload's length; 2 and a hole's first record, the one past it and how many of its sectors are blank.
pub fn port_next(
    volume: &[u8],
    medium: &mut [u64; 4],
    store: &[u64; 43],
    crcs: &[u32; 24],
    reader: &mut [u64; 10],
    out: &mut [u8],
    answer: &mut [u64; 4],
) -> u32
    ensures { (result, answer.new, reader.new, out.new, medium.new)
        ≡ next_at volume.now medium.old store.now crcs.now reader.old out.old }
{
    let rd = numbers::reader_in(*reader);
    let r = rd.next(
        volume,
        numbers::medium_in(*medium),
        numbers::store_in(*store, *crcs),
        out,
    );
    *medium = numbers::medium_words(r.medium);
    *reader = numbers::reader_words(r.reader);
    *answer = numbers::next_words(r.next);
    numbers::next_code(r.next)
}

pub fn port_seek(
    volume: &[u8],
    medium: &mut [u64; 4],
    store: &[u64; 43],
    crcs: &[u32; 24],
    reader: &mut [u64; 10],
    record: u32,
) -> u32
    ensures { (result, reader.new, medium.new)
        ≡ seek_at volume.now medium.old store.now crcs.now reader.old «record» }
{
    let rd = numbers::reader_in(*reader);
    let r = rd.seek(
        volume,
        numbers::medium_in(*medium),
        numbers::store_in(*store, *crcs),
        record,
    );
    *medium = numbers::medium_words(r.medium);
    *reader = numbers::reader_words(r.reader);
    numbers::code(r.outcome)
}

// Answer: the number of the record that comes next.
pub fn port_record(
    store: &[u64; 43],
    crcs: &[u32; 24],
    reader: &[u64; 10],
    answer: &mut [u64; 3],
) -> u32
    ensures { (result, answer.new) ≡ record_at store.now crcs.now reader.now }
{
    let rd = numbers::reader_in(*reader);
    let n = rd.record(numbers::store_in(*store, *crcs));
    *answer = numbers::numbered_words(n);
    numbers::numbered_code(n)
}
