// Bytes to append, in runs: each goes into the buffer at once.
ghost use Rattle.std.specs.Prelude.{◌≡◌, true, ◌+◌, ◌≤◌, ◌<◌, length};
ghost use Rattle.le.specs.Part.{over};
ghost use Rattle.medium.specs.Sector.{sectors_of};
ghost use Rattle.handles.specs.Handles.{store_ok};
ghost use Rattle.append.specs.Appender.{Fit};
ghost use Rattle.append.specs.Flush.{run_of, append_of};

use super::records::flush;
use super::{Appender, Handed, finished};
use handles::Store;
use medium::{Error, Medium};

// The bytes of a run: as many as are left, or as fit before the record is full.
fn run_of(fill: usize, left: usize) -> usize
    requires { fill ≤ 486 }
    ensures { result ≡ run_of fill left }
{
    if left < 486 - fill {
        return left;
    }
    486 - fill
}

// The run into the buffer, which is lent in its place.
fn put_at(buffer: &mut [u8; 486], at: usize, bytes: &[u8])
    requires { at + length bytes.now ≤ 486 }
    ensures { buffer.new ≡ over at bytes.now buffer.old }
{
    runs::put_bytes(buffer, at, bytes);
}

// A run that fits goes into the buffer, and a full buffer is written.
#[tactic(auto, using(crate::proofs::Runs::run_filled))]
fn put_run(
    volume: &mut [u8],
    medium: Medium,
    store: Store,
    appender: Appender,
    bytes: &[u8],
) -> Handed
    requires { (store_ok store (sectors_of volume.old) ≡ true) × (Fit appender store) × (1 ≤ length bytes.now)
        × (appender.fill + length bytes.now ≤ 486) }
    ensures { (volume.new ≡ (append_of bytes.now volume.old medium store appender).vol)
        × (result ≡ (append_of bytes.now volume.old medium store appender).ans) }
{
    let fill = appender.fill;
    let mut next = appender;
    put_at(&mut next.buffer, fill, bytes);
    next.fill = fill + bytes.len();
    if next.fill == 486 {
        return flush(volume, medium, store, next);
    }
    finished(medium, store, next)
}

fn put_all(
    volume: &mut [u8],
    medium: Medium,
    store: Store,
    appender: Appender,
    bytes: &[u8],
) -> Handed
    requires { (store_ok store (sectors_of volume.old) ≡ true) × (Fit appender store) × (appender.fill < 486) }
    ensures { (volume.new ≡ (append_of bytes.now volume.old medium store appender).vol)
        × (result ≡ (append_of bytes.now volume.old medium store appender).ans) }
{
    let mut m = medium;
    let mut s = store;
    let mut a = appender;
    let mut i = 0;
    while i < bytes.len() {
        let n = run_of(a.fill, bytes.len() - i);
        let e = i + n;
        let x = put_run(&mut *volume, m, s, a, &bytes[i..e]);
        let o = x.outcome;
        if let Err(_) = o {
            return x;
        }
        m = x.medium;
        s = x.store;
        a = x.appender;
        i = e;
    }
    finished(m, s, a)
}

// Bytes that fit before the record is full are one run, as most calls have them: the loop would copy the appender four times more.
pub(crate) fn put(
    volume: &mut [u8],
    medium: Medium,
    store: Store,
    appender: Appender,
    bytes: &[u8],
) -> Handed
    requires { (store_ok store (sectors_of volume.old) ≡ true) × (Fit appender store) × (appender.fill < 486) }
    ensures { (volume.new ≡ (append_of bytes.now volume.old medium store appender).vol)
        × (result ≡ (append_of bytes.now volume.old medium store appender).ans) }
{
    if bytes.len() == 0 {
        return put_all(volume, medium, store, appender, bytes);
    }
    if 486 - appender.fill < bytes.len() {
        return put_all(volume, medium, store, appender, bytes);
    }
    put_run(volume, medium, store, appender, bytes)
}
