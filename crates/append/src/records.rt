// The gathered bytes as a record, in the chunk or in another.
ghost use Rattle.std.specs.Prelude.{◌≡◌, true, ◌<◌};
ghost use Rattle.medium.specs.Sector.{sectors_of};
ghost use Rattle.handles.specs.Handles.{store_ok};
ghost use Rattle.append.specs.Appender.{Fit};
ghost use Rattle.append.specs.Flush.{extend_of, record_out, and_then, write_out, flush_of};

use super::chunks::extend;
use super::{Appender, Handed, Tail, finished, stopped};
use handles::Store;
use medium::{Error, Medium};

// Writes the gathered bytes as record `index` of the chunk.
fn write_at(
    volume: &mut [u8],
    medium: Medium,
    store: Store,
    appender: Appender,
    index: u32,
) -> Handed
    requires { (store_ok store (sectors_of volume.old) ≡ true) × (Fit appender store) × (index < store.head.chunk) }
    ensures { (volume.new ≡ (record_out index volume.old medium store appender).vol)
        × (result ≡ (record_out index volume.old medium store appender).ans) }
{
    let number = record::number_at(appender.position, store.head.chunk, index);
    let buffer = appender.buffer;
    let n = appender.fill;
    let w = record::write_record(
        volume,
        medium,
        store,
        appender.id,
        appender.chunk,
        index,
        number,
        &buffer[0..n],
    );
    let o = w.outcome;
    let m = w.medium;
    if let Err(e) = o {
        return stopped(e, m, store, appender);
    }
    let next = appender.filed(index);
    finished(m, store, next)
}

// The first record of another chunk.
fn write_next(
    volume: &mut [u8],
    medium: Medium,
    store: Store,
    appender: Appender,
    partial: bool,
    records: u32,
) -> Handed
    requires { (store_ok store (sectors_of volume.old) ≡ true) × (Fit appender store) × (records < 512) }
    ensures { (volume.new ≡ (and_then (extend_of volume.old medium store appender partial records) (record_out 0)).vol)
        × (result ≡ (and_then (extend_of volume.old medium store appender partial records) (record_out 0)).ans) }
{
    let x = extend(&mut *volume, medium, store, appender, partial, records);
    let o = x.outcome;
    let m = x.medium;
    let s = x.store;
    let a = x.appender;
    if let Err(_) = o {
        return x;
    }
    write_at(volume, m, s, a, 0)
}

fn write(volume: &mut [u8], medium: Medium, store: Store, appender: Appender) -> Handed
    requires { (store_ok store (sectors_of volume.old) ≡ true) × (Fit appender store) }
    ensures { (volume.new ≡ (write_out volume.old medium store appender).vol)
        × (result ≡ (write_out volume.old medium store appender).ans) }
{
    let tail = appender.tail;
    match tail {
        Tail::At(index) => {
            if index < store.head.chunk {
                return write_at(volume, medium, store, appender, index);
            }
            write_next(volume, medium, store, appender, false, 0)
        }
        Tail::Reopened(records) => write_next(volume, medium, store, appender, true, records),
        Tail::Closed => stopped(Error::Stale, medium, store, appender),
    }
}

// An error closes the appender: what of the record is written is not known.
pub(crate) fn flush(volume: &mut [u8], medium: Medium, store: Store, appender: Appender) -> Handed
    requires { (store_ok store (sectors_of volume.old) ≡ true) × (Fit appender store) }
    ensures { (volume.new ≡ (flush_of volume.old medium store appender).vol)
        × (result ≡ (flush_of volume.old medium store appender).ans) }
{
    let x = write(volume, medium, store, appender);
    let o = x.outcome;
    if let Err(e) = o {
        let m = x.medium;
        let s = x.store;
        let a = x.appender;
        let shut = a.closed();
        return stopped(e, m, s, shut);
    }
    x
}
