// Points in a hatch (02, S-1): a point is set in the file `MARKS`, and a file is read up to a point.
#![tactic(auto)]

mod marking;
mod scan;

ghost use Rattle.std.specs.Prelude.{◌≡◌, ◌≤◌, length};
ghost use Rattle.store.specs.Asked.{asked_of};
ghost use Rattle.points.specs.Look.{asked_point};
ghost use Rattle.points.specs.Set.{marked_answer, set_from, set_call};
ghost use Rattle.points.specs.Reading.{point_answer, upto_answer, point_call};

use append::Appender;
use handles::Store;
use marks::Mark;
use medium::{Error, Medium};
use reader::{Reader, Upto};
use scan::{end_of, look};

// What setting hands back: the number set, or the refusal. `appender`: that of `MARKS`, where it was opened, and an appender from before is stale. Else
// the caller keeps its own.
#[derive(Clone, Copy)]
pub struct Marked {
    pub outcome: Result<u32, Error>,
    pub medium: Medium,
    pub store: Store,
    pub appender: Option<Appender>,
}

#[derive(Clone, Copy)]
pub struct UptoAnswer {
    pub upto: Result<Upto, Error>,
    pub medium: Medium,
}

// What one turn of a walk over a file met, and the reader behind it.
#[derive(Clone, Copy)]
pub enum Sight {
    Passed,
    Line { id: u32, number: u32 },
    End,
}

#[derive(Clone, Copy)]
pub struct Turn {
    pub sight: Sight,
    pub reader: Reader,
}

// Where a walk came to: what the record there says, or nothing at the file's end.
#[derive(Clone, Copy)]
pub struct Seen {
    pub mark: Option<Mark>,
    pub reader: Reader,
}

// What `MARKS` says of a point.
#[derive(Clone, Copy)]
pub enum Place {
    Absent,
    Unset,
    Line { id: u32, number: u32 },
}

// Where a file ends: its id, and the number of the record at which its reader found the end.
#[derive(Clone, Copy)]
pub struct Ended {
    pub id: u32,
    pub number: u32,
}

// Refusals 3, 1 and 13; `named`: the file's name passes, where there is one.
fn asked(volume: &[u8], store: Store, named: bool, point: &[u8]) -> Result<(), Error>
    ensures { result ≡ asked_point (asked_of volume.now store named) point.now }
{
    if !store.handle_ok(medium::sectors(volume)) {
        return Err(Error::Handle);
    }
    if !named {
        return Err(Error::Name);
    }
    if !names::point_ok(point) {
        return Err(Error::Point);
    }
    Ok(())
}

// The file read to its end, then the line written; `fresh`: there is no `MARKS` yet.
fn set_from(
    volume: &mut [u8],
    medium: Medium,
    store: Store,
    point: &[u8],
    name: &[u8],
    fresh: bool,
) -> Marked
    requires { length point.now ≤ 16 }
    ensures { (volume.new ≡ (set_from fresh volume.old medium store point.now name.now).vol)
        × (marked_answer result ≡ (set_from fresh volume.old medium store point.now name.now).call) }
{
    match end_of(&volume[..], medium, store, name) {
        Err(e) => marking::not_set(e, medium, store),
        Ok(end) => marking::mark(volume, medium, store, point, end, fresh),
    }
}

// Sets a point where a file's reader finds the end now.
pub fn set_point(
    volume: &mut [u8],
    medium: Medium,
    store: Store,
    point: &[u8],
    name: &[u8],
) -> Marked
    ensures { (volume.new ≡ (set_call volume.old medium store point.now name.now).vol)
        × (marked_answer result ≡ (set_call volume.old medium store point.now name.now).call) }
{
    if let Err(e) = asked(&volume[..], store, names::name_ok(name), point) {
        return marking::not_set(e, medium, store);
    }
    match look(&volume[..], medium, store, point) {
        Err(e) => marking::not_set(e, medium, store),
        Ok(Place::Absent) => set_from(volume, medium, store, point, name, true),
        Ok(Place::Unset) => set_from(volume, medium, store, point, name, false),
        Ok(Place::Line { .. }) => marking::not_set(Error::Known, medium, store),
    }
}

// A reader of a point's file, up to the point, which its place in `MARKS` gives.
fn upto_at(volume: &[u8], medium: Medium, store: Store, point: &[u8]) -> Result<Upto, Error>
    ensures { upto_answer result medium ≡ point_call volume.now medium store point.now }
{
    asked(volume, store, true, point)?;
    match look(volume, medium, store, point)? {
        Place::Absent => Err(Error::NotFound),
        Place::Unset => Err(Error::NotFound),
        Place::Line { id, number } => {
            let r = store::reader_of_id(volume, medium, store, id);
            r.outcome?;
            Ok(Upto {
                reader: r.reader,
                limit: number,
            })
        }
    }
}

// The same, with the medium record, which reading leaves as it was.
pub fn read_point(volume: &[u8], medium: Medium, store: Store, point: &[u8]) -> UptoAnswer
    ensures { point_answer result ≡ point_call volume.now medium store point.now }
{
    let upto = upto_at(volume, medium, store, point);
    UptoAnswer { upto, medium }
}
