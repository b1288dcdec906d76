// Another chunk for a file.
ghost use Rattle.std.specs.Prelude.{◌≡◌, true, ◌<◌};
ghost use Rattle.medium.specs.Sector.{sectors_of};
ghost use Rattle.handles.specs.Handles.{store_ok};
ghost use Rattle.append.specs.Appender.{Fit};
ghost use Rattle.append.specs.Flush.{link_out, rolled_out, extend_of};

use super::{Appender, Handed, finished, stopped};
use handles::Store;
use medium::{Error, Medium};
use plan::Edit;

// Links a free chunk to the file; a reopened last chunk is marked with its records in the same commit.
fn link(
    volume: &mut [u8],
    medium: Medium,
    store: Store,
    appender: Appender,
    partial: bool,
    records: u32,
    next: u32,
) -> Handed
    requires { (store_ok store (sectors_of volume.old) ≡ true) × (Fit appender store) × (appender.position < 32767) × (records < 512)
        × (next < store.head.chunks) }
    ensures { (volume.new ≡ (link_out volume.old medium store appender partial records next).vol)
        × (result ≡ (link_out volume.old medium store appender partial records next).ans) }
{
    let none = [0u8; 1];
    let edit = Edit::Extend {
        slot: appender.slot,
        position: appender.position,
        next,
        last: appender.chunk,
        partial,
        records,
    };
    let c = commit::commit(volume, medium, store, edit, &none[0..0]);
    let o = c.outcome;
    let m = c.medium;
    let s = c.store;
    if let Err(e) = o {
        return stopped(e, m, s, appender);
    }
    let moved = appender.moved_to(next);
    finished(m, s, moved)
}

// No chunk is free: the oldest file of the directory goes, and then one must be.
fn rolled(
    volume: &mut [u8],
    medium: Medium,
    store: Store,
    appender: Appender,
    partial: bool,
    records: u32,
) -> Handed
    requires { (store_ok store (sectors_of volume.old) ≡ true) × (Fit appender store) × (appender.position < 32767) × (records < 512)
        × (appender.rolls ≡ true) }
    ensures { (volume.new ≡ (rolled_out volume.old medium store appender partial records).vol)
        × (result ≡ (rolled_out volume.old medium store appender partial records).ans) }
{
    let spared = handles::open_file(store.writer);
    let dir = appender.dir;
    let bytes = dir.bytes;
    let n = dir.length;
    let g = remove::remove_oldest(&mut *volume, medium, store, &bytes[0..n], spared);
    let o = g.outcome;
    let m = g.medium;
    let s = g.store;
    if let Err(e) = o {
        return stopped(e, m, s, appender);
    }
    if !g.any {
        return stopped(Error::Full, m, s, appender);
    }
    let p = table::free_chunk(&volume[..], m, s);
    match p {
        Err(e) => stopped(e, m, s, appender),
        Ok(None) => stopped(Error::Corrupt, m, s, appender),
        Ok(Some(next)) => link(volume, m, s, appender, partial, records, next),
    }
}

// Takes another chunk. A link has no place for a position past 32,767. Only where a commit leaves a body sector unwritten that does not hold the bytes
// due there does a call get that far (docs/DECISIONS.md).
pub(crate) fn extend(
    volume: &mut [u8],
    medium: Medium,
    store: Store,
    appender: Appender,
    partial: bool,
    records: u32,
) -> Handed
    requires { (store_ok store (sectors_of volume.old) ≡ true) × (Fit appender store) × (records < 512) }
    ensures { (volume.new ≡ (extend_of volume.old medium store appender partial records).vol)
        × (result ≡ (extend_of volume.old medium store appender partial records).ans) }
{
    if 32767 <= appender.position {
        return stopped(Error::Corrupt, medium, store, appender);
    }
    let p = table::free_chunk(&volume[..], medium, store);
    match p {
        Err(e) => stopped(e, medium, store, appender),
        Ok(None) => {
            if appender.rolls {
                return rolled(volume, medium, store, appender, partial, records);
            }
            stopped(Error::Full, medium, store, appender)
        }
        Ok(Some(next)) => link(volume, medium, store, appender, partial, records, next),
    }
}
