// The calls that write, for a program in another language. What crosses is as in the crate bridge, and
//   appender: token, slot, id, chunk, position, tail (0 at, 1 reopened, else closed), its count, fill, rolls
//     over (0 no, else yes), length of the directory. Its 486 bytes and the 40 of the directory cross beside it.
#![tactic(auto)]

pub mod appenders;
pub mod opening;

ghost use Rattle.std.specs.Prelude.{◌≡◌};
ghost use Rattle.bridge_write.specs.Writing.{format_at, delete_at, oldest_at, append_at, sync_at, room_at};

use bridge::numbers;

// The store is all zeros where it is refused.
pub fn port_format(
    volume: &mut [u8],
    medium: &mut [u64; 4],
    size: u32,
    seed: u64,
    store: &mut [u64; 43],
    crcs: &mut [u32; 24],
) -> u32
    ensures { (volume.new, result, store.new, crcs.new, medium.new)
        ≡ format_at volume.old medium.old «size» seed }
{
    let r = store::format(volume, numbers::medium_in(*medium), size, seed);
    numbers::put_told(r, store, crcs, medium)
}

pub fn port_delete(
    volume: &mut [u8],
    medium: &mut [u64; 4],
    store: &mut [u64; 43],
    crcs: &mut [u32; 24],
    name: &[u8],
) -> u32
    ensures { (volume.new, result, store.new, crcs.new, medium.new)
        ≡ delete_at volume.old medium.old store.old crcs.old name.now }
{
    let r = store::delete(
        volume,
        numbers::medium_in(*medium),
        numbers::store_in(*store, *crcs),
        name,
    );
    numbers::put_told(r, store, crcs, medium)
}

// Answer: 1 and the length of the name that went, its bytes in `gone`; or 0.
pub fn port_delete_oldest(
    volume: &mut [u8],
    medium: &mut [u64; 4],
    store: &mut [u64; 43],
    crcs: &mut [u32; 24],
    dir: &[u8],
    answer: &mut [u64; 3],
    gone: &mut [u8; 40],
) -> u32
    ensures { (volume.new, result, answer.new, gone.new, store.new, crcs.new, medium.new)
        ≡ oldest_at volume.old medium.old store.old crcs.old dir.now gone.old }
{
    let r = store::delete_oldest(
        volume,
        numbers::medium_in(*medium),
        numbers::store_in(*store, *crcs),
        dir,
    );
    numbers::put_store(r.store, store, crcs);
    *medium = numbers::medium_words(r.medium);
    *answer = appenders::gone_words(r);
    *gone = appenders::gone_name(r, *gone);
    appenders::gone_code(r)
}

pub fn port_append(
    volume: &mut [u8],
    medium: &mut [u64; 4],
    store: &mut [u64; 43],
    crcs: &mut [u32; 24],
    appender: &mut [u64; 10],
    buffer: &mut [u8; 486],
    dir: &mut [u8; 40],
    bytes: &[u8],
) -> u32
    ensures { (volume.new, result, store.new, crcs.new, appender.new, buffer.new, dir.new, medium.new)
        ≡ append_at volume.old medium.old store.old crcs.old appender.old
        buffer.old dir.old bytes.now }
{
    let ap = appenders::appender_in(*appender, *buffer, *dir);
    let r = ap.append(
        volume,
        numbers::medium_in(*medium),
        numbers::store_in(*store, *crcs),
        bytes,
    );
    appenders::put_handed(r, store, crcs, appender, buffer, dir, medium)
}

pub fn port_sync(
    volume: &mut [u8],
    medium: &mut [u64; 4],
    store: &mut [u64; 43],
    crcs: &mut [u32; 24],
    appender: &mut [u64; 10],
    buffer: &mut [u8; 486],
    dir: &mut [u8; 40],
) -> u32
    ensures { (volume.new, result, store.new, crcs.new, appender.new, buffer.new, dir.new, medium.new)
        ≡ sync_at volume.old medium.old store.old crcs.old appender.old
        buffer.old dir.old }
{
    let ap = appenders::appender_in(*appender, *buffer, *dir);
    let r = ap.sync(
        volume,
        numbers::medium_in(*medium),
        numbers::store_in(*store, *crcs),
    );
    appenders::put_handed(r, store, crcs, appender, buffer, dir, medium)
}

// Answer: the bytes until a record is written.
pub fn port_room(
    appender: &[u64; 10],
    buffer: &[u8; 486],
    dir: &[u8; 40],
    answer: &mut [u64; 3],
) -> u32
    ensures { (result, answer.new) ≡ room_at appender.now
        buffer.now dir.now }
{
    let ap = appenders::appender_in(*appender, *buffer, *dir);
    let n = ap.room();
    *answer = appenders::room_words(n);
    appenders::room_code(n)
}
