// The calls of the crate bridge_write for C: a static library offers C functions, and no other crate can stand on it, so each export
// calls the function of the same name and states its clause again. What crosses is told in the crates bridge and bridge_write. C links it as
// libbridge_write.a (tools/archive).
#![tactic(auto)]

ghost use Rattle.std.specs.Prelude.{◌≡◌};
ghost use Rattle.bridge_write.specs.Writing.{format_at, delete_at, oldest_at, append_at, sync_at, room_at, create_at, open_at};

// The store is all zeros where it is refused.
#[unsafe(no_mangle)]
pub extern "C" fn port_format(
    volume: &mut [u8],
    medium: &mut [u64; 4],
    size: u32,
    seed: u64,
    store: &mut [u64; 43],
    crcs: &mut [u32; 24],
) -> u32
    ensures { (volume.new, result, store.new, crcs.new, medium.new)
        ≡ format_at volume.old medium.old «size» seed }
{
    bridge_write::port_format(volume, medium, size, seed, store, crcs)
}

#[unsafe(no_mangle)]
pub extern "C" fn port_delete(
    volume: &mut [u8],
    medium: &mut [u64; 4],
    store: &mut [u64; 43],
    crcs: &mut [u32; 24],
    name: &[u8],
) -> u32
    ensures { (volume.new, result, store.new, crcs.new, medium.new)
        ≡ delete_at volume.old medium.old store.old crcs.old name.now }
{
    bridge_write::port_delete(volume, medium, store, crcs, name)
}

// Answer: 1 and the length of the name that went, its bytes in `gone`; or 0.
#[unsafe(no_mangle)]
pub extern "C" fn port_delete_oldest(
    volume: &mut [u8],
    medium: &mut [u64; 4],
    store: &mut [u64; 43],
    crcs: &mut [u32; 24],
    dir: &[u8],
    answer: &mut [u64; 3],
    gone: &mut [u8; 40],
) -> u32
    ensures { (volume.new, result, answer.new, gone.new, store.new, crcs.new, medium.new)
        ≡ oldest_at volume.old medium.old store.old crcs.old dir.now gone.old }
{
    bridge_write::port_delete_oldest(volume, medium, store, crcs, dir, answer, gone)
}

#[unsafe(no_mangle)]
pub extern "C" fn port_append(
    volume: &mut [u8],
    medium: &mut [u64; 4],
    store: &mut [u64; 43],
    crcs: &mut [u32; 24],
    appender: &mut [u64; 10],
    buffer: &mut [u8; 486],
    dir: &mut [u8; 40],
    bytes: &[u8],
) -> u32
    ensures { (volume.new, result, store.new, crcs.new, appender.new, buffer.new, dir.new, medium.new)
        ≡ append_at volume.old medium.old store.old crcs.old appender.old
        buffer.old dir.old bytes.now }
{
    bridge_write::port_append(volume, medium, store, crcs, appender, buffer, dir, bytes)
}

#[unsafe(no_mangle)]
pub extern "C" fn port_sync(
    volume: &mut [u8],
    medium: &mut [u64; 4],
    store: &mut [u64; 43],
    crcs: &mut [u32; 24],
    appender: &mut [u64; 10],
    buffer: &mut [u8; 486],
    dir: &mut [u8; 40],
) -> u32
    ensures { (volume.new, result, store.new, crcs.new, appender.new, buffer.new, dir.new, medium.new)
        ≡ sync_at volume.old medium.old store.old crcs.old appender.old
        buffer.old dir.old }
{
    bridge_write::port_sync(volume, medium, store, crcs, appender, buffer, dir)
}

// Answer: the bytes until a record is written.
#[unsafe(no_mangle)]
pub extern "C" fn port_room(
    appender: &[u64; 10],
    buffer: &[u8; 486],
    dir: &[u8; 40],
    answer: &mut [u64; 3],
) -> u32
    ensures { (result, answer.new) ≡ room_at appender.now
        buffer.now dir.now }
{
    bridge_write::port_room(appender, buffer, dir, answer)
}

// The calls that open a file to append: `rolls` is 0 or else, and `over` the 40 bytes of the appender's directory. Refused, the appender is all zeros and
// closed.
#[unsafe(no_mangle)]
pub extern "C" fn port_create(
    volume: &mut [u8],
    medium: &mut [u64; 4],
    store: &mut [u64; 43],
    crcs: &mut [u32; 24],
    name: &[u8],
    rolls: u32,
    dir: &[u8],
    appender: &mut [u64; 10],
    buffer: &mut [u8; 486],
    over: &mut [u8; 40],
) -> u32
    ensures { (volume.new, result, store.new, crcs.new, appender.new, buffer.new, over.new, medium.new)
        ≡ create_at volume.old medium.old store.old crcs.old name.now rolls dir.now }
{
    bridge_write::opening::port_create(
        volume, medium, store, crcs, name, rolls, dir, appender, buffer, over,
    )
}

#[unsafe(no_mangle)]
pub extern "C" fn port_open_append(
    volume: &[u8],
    medium: &mut [u64; 4],
    store: &mut [u64; 43],
    crcs: &mut [u32; 24],
    name: &[u8],
    rolls: u32,
    dir: &[u8],
    appender: &mut [u64; 10],
    buffer: &mut [u8; 486],
    over: &mut [u8; 40],
) -> u32
    ensures { (result, store.new, crcs.new, appender.new, buffer.new, over.new, medium.new)
        ≡ open_at volume.now medium.old store.old crcs.old name.now rolls dir.now }
{
    bridge_write::opening::port_open_append(
        volume, medium, store, crcs, name, rolls, dir, appender, buffer, over,
    )
}
