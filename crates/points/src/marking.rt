// `MARKS` opened, and the line of a point appended and synced.
ghost use Rattle.std.specs.Prelude.{◌≡◌, true, [], ◌≤◌, length};
ghost use Rattle.medium.specs.Refusal.{number_of};
ghost use Rattle.append.specs.Calls.{app_answer};
ghost use Rattle.marks.specs.Line.{line_of};
ghost use Rattle.points.specs.Set.{marked_answer, not_set, told_by, open_of, mark_of};

use super::{Ended, Marked};
use append::Handed;
use handles::Store;
use medium::{Error, Medium};

// Refused, and `MARKS` is not opened: the handles as they stand, and no appender.
pub(crate) fn not_set(e: Error, medium: Medium, store: Store) -> Marked
    ensures { marked_answer result ≡ (not_set [] medium store (number_of e)).call }
{
    Marked {
        outcome: Err(e),
        medium,
        store,
        appender: None,
    }
}

// By the last call made, once `MARKS` is opened.
fn told_by(number: u32, c: Handed) -> Marked
    ensures { marked_answer result ≡ told_by true number (app_answer c) }
{
    Marked {
        outcome: c.outcome.and(Ok(number)),
        medium: c.medium,
        store: c.store,
        appender: Some(c.appender),
    }
}

// `MARKS` made if absent, else opened, with no rollover.
fn open(volume: &mut [u8], medium: Medium, store: Store, fresh: bool) -> Handed
    ensures { (volume.new ≡ (open_of fresh volume.old medium store).vol)
        × (app_answer result ≡ (open_of fresh volume.old medium store).call) }
{
    if fresh {
        store::create(volume, medium, store, b"MARKS", false, b"")
    } else {
        store::open_append(&volume[..], medium, store, b"MARKS", false, b"")
    }
}

// Opened, appended, synced: the first refused call is the last.
pub(crate) fn mark(
    volume: &mut [u8],
    medium: Medium,
    store: Store,
    point: &[u8],
    end: Ended,
    fresh: bool,
) -> Marked
    requires { length point.now ≤ 16 }
    ensures { (volume.new ≡ (mark_of fresh (line_of point.now end.id end.number) end.number volume.old medium store).vol)
        × (marked_answer result ≡ (mark_of fresh (line_of point.now end.id end.number) end.number volume.old medium store).call) }
{
    let mut bytes = [0u8; 39];
    let length = marks::line(&mut bytes, point, end.id, end.number);
    let o = open(volume, medium, store, fresh);
    if let Err(e) = o.outcome {
        return not_set(e, o.medium, o.store);
    }
    let a = o
        .appender
        .append(volume, o.medium, o.store, &bytes[..length]);
    if let Err(_) = a.outcome {
        return told_by(end.number, a);
    }
    let s = a.appender.sync(volume, a.medium, a.store);
    told_by(end.number, s)
}
