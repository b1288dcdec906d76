// The calls of S-1 for a program in another language: a point set, a file read up to a point, and the reader up to it.
// What crosses is as in the crates bridge and bridge_write; a reader up to a record number is a reader's row, with the
// number in a row of its own.
#![tactic(auto)]

mod uptos;

ghost use Rattle.std.specs.Prelude.{◌≡◌};
ghost use Rattle.bridge_points.specs.Points.{set_at, point_at, below_at};

use bridge::numbers;
use bridge_write::appenders;

// Answer: the record number, and 1 where MARKS was opened. Where it was not the appender is all zeros and closed.
#[unsafe(no_mangle)]
pub extern "C" fn port_set_point(
    volume: &mut [u8],
    medium: &mut [u64; 4],
    store: &mut [u64; 43],
    crcs: &mut [u32; 24],
    point: &[u8],
    name: &[u8],
    answer: &mut [u64; 3],
    appender: &mut [u64; 10],
    buffer: &mut [u8; 486],
    over: &mut [u8; 40],
) -> u32
    ensures { (
      volume.new,
      result,
      answer.new,
      store.new,
      crcs.new,
      appender.new,
      buffer.new,
      over.new,
      medium.new,
    )
        ≡ set_at volume.old medium.old store.old crcs.old point.now name.now }
{
    let r = points::set_point(
        volume,
        numbers::medium_in(*medium),
        numbers::store_in(*store, *crcs),
        point,
        name,
    );
    numbers::put_store(r.store, store, crcs);
    *medium = numbers::medium_words(r.medium);
    let own = r.appender.unwrap_or(append::no_appender());
    appenders::put_appender(own, appender, buffer, over);
    let number = r.outcome.unwrap_or(0);
    let opened = numbers::flag(r.appender.is_some());
    *answer = [number as u64, opened, 0];
    numbers::code(r.outcome)
}

// Refused, the reader is all zeros, and so is the number.
#[unsafe(no_mangle)]
pub extern "C" fn port_read_point(
    volume: &[u8],
    medium: &mut [u64; 4],
    store: &[u64; 43],
    crcs: &[u32; 24],
    point: &[u8],
    reader: &mut [u64; 10],
    limit: &mut [u64; 1],
) -> u32
    ensures { (result, reader.new, limit.new, medium.new)
        ≡ point_at volume.now medium.old store.now crcs.now point.now }
{
    let r = points::read_point(
        volume,
        numbers::medium_in(*medium),
        numbers::store_in(*store, *crcs),
        point,
    );
    *medium = numbers::medium_words(r.medium);
    uptos::put_upto(uptos::or_none(r.upto), reader, limit);
    numbers::code(r.upto)
}

// Answer: as of next.
#[unsafe(no_mangle)]
pub extern "C" fn port_upto_next(
    volume: &[u8],
    medium: &mut [u64; 4],
    store: &[u64; 43],
    crcs: &[u32; 24],
    reader: &mut [u64; 10],
    limit: &mut [u64; 1],
    out: &mut [u8],
    answer: &mut [u64; 4],
) -> u32
    ensures { (result, answer.new, reader.new, limit.new, out.new, medium.new)
        ≡ below_at volume.now medium.old store.now crcs.now reader.old
        limit.old out.old }
{
    let u = uptos::upto_in(*reader, *limit);
    let r = u.next(
        volume,
        numbers::medium_in(*medium),
        numbers::store_in(*store, *crcs),
        out,
    );
    *medium = numbers::medium_words(r.medium);
    uptos::put_upto(r.upto, reader, limit);
    *answer = numbers::next_words(r.next);
    numbers::next_code(r.next)
}
