// A file read record by record: `MARKS` for the line of a point, any file for its end.
ghost use Rattle.std.specs.Prelude.{◌≡◌};
ghost use Rattle.std.specs.Option.{option_copied};
ghost use Rattle.points.specs.Look.{turn_of, walk_of, look_of, end_of};
ghost use Rattle.points.specs.Told.{sought_of, sight_of, visit_of, walked_answer, place_answer, ended_answer};

use super::{Ended, Place, Seen, Sight, Turn};
use handles::Store;
use marks::Mark;
use medium::{Error, Medium};
use reader::{Next, Reader};

// The most turns of a walk. It ends before: a reader goes forward, and a file has at most 2,048 chunks of 512 records.
const TURNS: u32 = 1_048_577;

// A record: the line of the point, where one is sought, or one that is passed over.
fn sight_of(sought: Option<&[u8]>, payload: &[u8]) -> Sight
    ensures { result ≡ sight_of (sought_of (option_copied sought.entry) payload.now) }
{
    match sought {
        None => Sight::Passed,
        Some(point) => match marks::says(point, payload) {
            None => Sight::Passed,
            Some(said) => Sight::Line {
                id: said.id,
                number: said.number,
            },
        },
    }
}

// One record, hole or end.
fn turn(
    volume: &[u8],
    medium: Medium,
    store: Store,
    reader: Reader,
    sought: Option<&[u8]>,
) -> Result<Turn, Error>
    ensures { visit_of result ≡ turn_of (sought_of (option_copied sought.entry)) volume.now medium store reader }
{
    let mut out = [0u8; 486];
    let r = reader.next(volume, medium, store, &mut out);
    let found = r.next?;
    let sight = match found {
        Next::Payload(length) => sight_of(sought, &out[..length]),
        Next::Hole { .. } => Sight::Passed,
        Next::End => Sight::End,
    };
    Ok(Turn {
        sight,
        reader: r.reader,
    })
}

// Turn by turn to the line sought, or to the file's end.
fn walk(
    volume: &[u8],
    medium: Medium,
    store: Store,
    reader: Reader,
    sought: Option<&[u8]>,
) -> Result<Seen, Error>
    ensures { walked_answer result ≡ walk_of (sought_of (option_copied sought.entry)) volume.now medium store reader }
{
    let mut reader = reader;
    for _ in 0..TURNS {
        let t = turn(volume, medium, store, reader, sought)?;
        reader = t.reader;
        match t.sight {
            Sight::Passed => {}
            Sight::Line { id, number } => {
                let mark = Some(Mark { id, number });
                return Ok(Seen { mark, reader });
            }
            Sight::End => {
                let mark = None;
                return Ok(Seen { mark, reader });
            }
        }
    }
    let mark = None;
    Ok(Seen { mark, reader })
}

// What `MARKS` says of a point: its first line of the name.
pub(crate) fn look(
    volume: &[u8],
    medium: Medium,
    store: Store,
    point: &[u8],
) -> Result<Place, Error>
    ensures { place_answer result ≡ look_of volume.now medium store point.now }
{
    let r = store::reader(volume, medium, store, b"MARKS");
    if let Err(e) = r.outcome {
        return match e {
            Error::NotFound => Ok(Place::Absent),
            _ => Err(e),
        };
    }
    let seen = walk(volume, medium, store, r.reader, Some(point))?;
    match seen.mark {
        None => Ok(Place::Unset),
        Some(said) => Ok(Place::Line {
            id: said.id,
            number: said.number,
        }),
    }
}

// Where a file's reader finds the end.
pub(crate) fn end_of(
    volume: &[u8],
    medium: Medium,
    store: Store,
    name: &[u8],
) -> Result<Ended, Error>
    ensures { ended_answer result ≡ end_of volume.now medium store name.now }
{
    let r = store::reader(volume, medium, store, name);
    r.outcome?;
    let seen = walk(volume, medium, store, r.reader, None)?;
    let number = seen.reader.record(store)?;
    Ok(Ended {
        id: seen.reader.id,
        number,
    })
}
