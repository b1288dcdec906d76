// The appender: bytes gathered to records, and a chunk more where the last one is full. What the Rust has as `Appender`.
#![tactic(auto)]

mod chunks;
mod elsewhere;
mod gather;
mod records;
mod refusals;

ghost use Rattle.std.specs.Prelude.{◌≡◌, Ok, Err};
ghost use Rattle.append.specs.Appender.{no_appender};
ghost use Rattle.append.specs.Calls.{app_answer, append_call, sync_call, room_answer, room_call};

use handles::Store;
use medium::{Error, Medium};

// The directory of a rollover: the first `length` of its bytes.
#[derive(Clone, Copy)]
pub struct Dir {
    pub bytes: [u8; 40],
    pub length: usize,
}

// Where the next record goes: at an index, or in a further chunk where the last one was reopened with so many records.
#[derive(Clone, Copy)]
pub enum Tail {
    At(u32),
    Reopened(u32),
    Closed,
}

#[derive(Clone, Copy)]
pub struct Appender {
    pub token: u32,
    pub slot: usize,
    pub id: u32,
    pub chunk: u32,
    pub position: u32,
    pub tail: Tail,
    pub fill: usize,
    pub buffer: [u8; 486],
    pub rolls: bool,
    pub dir: Dir,
}

// What a call of an appender hands back, refused or not: append, sync, create and open_append.
#[derive(Clone, Copy)]
pub struct Handed {
    pub outcome: Result<(), Error>,
    pub medium: Medium,
    pub store: Store,
    pub appender: Appender,
}

// Bytes that append takes before it writes a record.
#[derive(Clone, Copy)]
pub enum Room {
    Refused(Error),
    Is(usize),
}

// What a refused call holds in the place of an appender: a value that no call accepts.
pub fn no_appender() -> Appender
    ensures { result ≡ no_appender }
{
    Appender {
        token: 0,
        slot: 0,
        id: 0,
        chunk: 0,
        position: 0,
        tail: Tail::Closed,
        fill: 0,
        buffer: [0u8; 486],
        rolls: false,
        dir: Dir {
            bytes: [0u8; 40],
            length: 0,
        },
    }
}

fn stopped(e: Error, medium: Medium, store: Store, appender: Appender) -> Handed
    ensures { result ≡ record { outcome = Err e; medium = medium; store = store; appender = appender } }
{
    Handed {
        outcome: Err(e),
        medium,
        store,
        appender,
    }
}

fn finished(medium: Medium, store: Store, appender: Appender) -> Handed
    ensures { result ≡ record { outcome = Ok tt; medium = medium; store = store; appender = appender } }
{
    Handed {
        outcome: Ok(()),
        medium,
        store,
        appender,
    }
}

impl Appender {
    // Bytes until a record is written; 3 where the fill is none that an appender has.
    #[tactic(auto, unfolding(crate::specs::Calls::room_call, le::specs::Choice::pick))]
    pub fn room(self) -> Room
        ensures { room_answer result ≡ room_call self }
    {
        let fill = self.fill;
        if fill <= 486 {
            return Room::Is(486 - fill);
        }
        Room::Refused(Error::Handle)
    }

    // Append `bytes`; each 486 of them write a record. An error in writing closes the appender.
    pub fn append(self, volume: &mut [u8], medium: Medium, store: Store, bytes: &[u8]) -> Handed
        ensures { (volume.new ≡ (append_call volume.old medium store self bytes.now).vol)
            × (app_answer result ≡ (append_call volume.old medium store self bytes.now).call) }
    {
        let o = self.check(&volume[..], store);
        if let Err(e) = o {
            return stopped(e, medium, store, self);
        }
        gather::put(volume, medium, store, self, bytes)
    }

    // Make every appended byte durable.
    #[tactic(auto, using(crate::proofs::Offers::sync_idle))]
    pub fn sync(self, volume: &mut [u8], medium: Medium, store: Store) -> Handed
        ensures { (volume.new ≡ (sync_call volume.old medium store self).vol)
            × (app_answer result ≡ (sync_call volume.old medium store self).call) }
    {
        let o = self.check(&volume[..], store);
        if let Err(e) = o {
            return stopped(e, medium, store, self);
        }
        if self.fill == 0 {
            return finished(medium, store, self);
        }
        records::flush(volume, medium, store, self)
    }
}
