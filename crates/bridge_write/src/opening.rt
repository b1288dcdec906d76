// The calls that open a file to append. What crosses is in lib.rt; `rolls` is 0 or else, and `over` the
// 40 bytes of the appender's directory. Refused, the appender is all zeros and closed.
ghost use Rattle.std.specs.Prelude.{◌≡◌};
ghost use Rattle.bridge_write.specs.Writing.{create_at, open_at};

use crate::appenders;
use bridge::numbers;

pub fn port_create(
    volume: &mut [u8],
    medium: &mut [u64; 4],
    store: &mut [u64; 43],
    crcs: &mut [u32; 24],
    name: &[u8],
    rolls: u32,
    dir: &[u8],
    appender: &mut [u64; 10],
    buffer: &mut [u8; 486],
    over: &mut [u8; 40],
) -> u32
    ensures { (volume.new, result, store.new, crcs.new, appender.new, buffer.new, over.new, medium.new)
        ≡ create_at volume.old medium.old store.old crcs.old name.now rolls dir.now }
{
    let r = store::create(
        volume,
        numbers::medium_in(*medium),
        numbers::store_in(*store, *crcs),
        name,
        rolls != 0,
        dir,
    );
    appenders::put_handed(r, store, crcs, appender, buffer, over, medium)
}

pub fn port_open_append(
    volume: &[u8],
    medium: &mut [u64; 4],
    store: &mut [u64; 43],
    crcs: &mut [u32; 24],
    name: &[u8],
    rolls: u32,
    dir: &[u8],
    appender: &mut [u64; 10],
    buffer: &mut [u8; 486],
    over: &mut [u8; 40],
) -> u32
    ensures { (result, store.new, crcs.new, appender.new, buffer.new, over.new, medium.new)
        ≡ open_at volume.now medium.old store.old crcs.old name.now rolls dir.now }
{
    let r = store::open_append(
        volume,
        numbers::medium_in(*medium),
        numbers::store_in(*store, *crcs),
        name,
        rolls != 0,
        dir,
    );
    appenders::put_handed(r, store, crcs, appender, buffer, over, medium)
}
