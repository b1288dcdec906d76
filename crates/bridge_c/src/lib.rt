// The calls of the crate bridge for C: a static library offers C functions, and no other crate can stand on it, so each export
// calls the function of the same name and states its clause again. What crosses is told there. C links it as libbridge.a (tools/archive).
#![tactic(auto)]

ghost use Rattle.std.specs.Prelude.{◌≡◌};
ghost use Rattle.bridge.specs.Calls.{mount_at, free_count_at, find_at, list_at, reader_at, next_at, seek_at, record_at};

// The store is all zeros where it is refused.
#[unsafe(no_mangle)]
pub extern "C" fn port_mount(
    volume: &[u8],
    medium: &mut [u64; 4],
    store: &mut [u64; 43],
    crcs: &mut [u32; 24],
) -> u32
    ensures { (result, store.new, crcs.new, medium.new) ≡ mount_at volume.now medium.old }
{
    bridge::port_mount(volume, medium, store, crcs)
}

// Answer: how many chunks are free (S-3).
#[unsafe(no_mangle)]
pub extern "C" fn port_free_count(
    volume: &[u8],
    medium: &mut [u64; 4],
    store: &[u64; 43],
    crcs: &[u32; 24],
    answer: &mut [u64; 3],
) -> u32
    ensures { (result, answer.new, medium.new)
        ≡ free_count_at volume.now medium.old store.now crcs.now }
{
    bridge::port_free_count(volume, medium, store, crcs, answer)
}

// Answer: the slot and the file id.
#[unsafe(no_mangle)]
pub extern "C" fn port_find(
    volume: &[u8],
    medium: &mut [u64; 4],
    store: &[u64; 43],
    crcs: &[u32; 24],
    name: &[u8],
    answer: &mut [u64; 3],
) -> u32
    ensures { (result, answer.new, medium.new)
        ≡ find_at volume.now medium.old store.now crcs.now name.now }
{
    bridge::port_find(volume, medium, store, crcs, name, answer)
}

// Answer: the number of rows, also where it is refused.
#[unsafe(no_mangle)]
pub extern "C" fn port_list(
    volume: &[u8],
    medium: &mut [u64; 4],
    store: &[u64; 43],
    crcs: &[u32; 24],
    dir: &[u8],
    counts: &mut [u16],
    rows: &mut [u8],
    answer: &mut [u64; 3],
) -> u32
    ensures { (result, answer.new, counts.new, rows.new, medium.new)
        ≡ list_at volume.now medium.old store.now crcs.now dir.now
        counts.old rows.old }
{
    bridge::port_list(volume, medium, store, crcs, dir, counts, rows, answer)
}

// The reader is all zeros where it is refused.
#[unsafe(no_mangle)]
pub extern "C" fn port_reader(
    volume: &[u8],
    medium: &mut [u64; 4],
    store: &[u64; 43],
    crcs: &[u32; 24],
    name: &[u8],
    reader: &mut [u64; 10],
) -> u32
    ensures { (result, reader.new, medium.new)
        ≡ reader_at volume.now medium.old store.now crcs.now name.now }
{
    bridge::port_reader(volume, medium, store, crcs, name, reader)
}

// Answer: 0 the end; 1 and the payload's length; 2 and a hole's first record, the one past it and how many of its sectors are blank.
#[unsafe(no_mangle)]
pub extern "C" fn port_next(
    volume: &[u8],
    medium: &mut [u64; 4],
    store: &[u64; 43],
    crcs: &[u32; 24],
    reader: &mut [u64; 10],
    out: &mut [u8],
    answer: &mut [u64; 4],
) -> u32
    ensures { (result, answer.new, reader.new, out.new, medium.new)
        ≡ next_at volume.now medium.old store.now crcs.now reader.old out.old }
{
    bridge::port_next(volume, medium, store, crcs, reader, out, answer)
}

#[unsafe(no_mangle)]
pub extern "C" fn port_seek(
    volume: &[u8],
    medium: &mut [u64; 4],
    store: &[u64; 43],
    crcs: &[u32; 24],
    reader: &mut [u64; 10],
    record: u32,
) -> u32
    ensures { (result, reader.new, medium.new)
        ≡ seek_at volume.now medium.old store.now crcs.now reader.old «record» }
{
    bridge::port_seek(volume, medium, store, crcs, reader, record)
}

// Answer: the number of the record that comes next.
#[unsafe(no_mangle)]
pub extern "C" fn port_record(
    store: &[u64; 43],
    crcs: &[u32; 24],
    reader: &[u64; 10],
    answer: &mut [u64; 3],
) -> u32
    ensures { (result, answer.new) ≡ record_at store.now crcs.now reader.now }
{
    bridge::port_record(store, crcs, reader, answer)
}
