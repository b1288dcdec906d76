// The line program between its input and its output: what it holds from line to line, what a line does to that and to the volume, and its answer.
#![tactic(auto)]

ghost use Rattle.std.specs.Prelude.{◌≡◌};
ghost use Rattle.words.specs.Words.{no_rollover, rollover, list, line_of};
ghost use Rattle.medium.specs.Refusal.{outcome_of};
ghost use Rattle.append.specs.Calls.{room_call};
ghost use Rattle.le.specs.Choice.{pick};
ghost use Rattle.session.specs.Session.{said_of, start_of, allowed_of, held_of, turn, turn_of, format_line, create_line, room_said};
ghost use Rattle.session.specs.Session.{append_line, sync_line, delete_line, store_of, handles_of, after_format, after_create, line_step, step_of};

use append::{Appender, Handed, Room};
use handles::Store;
use medium::{Error, Medium};
use words::Parsed;

// What is held from line to line, beside the volume. `formatted`, `created`: a format, a create was accepted.
// They are no `Option`s, since `step` takes any session and hands it back whole, one with a store and `formatted` false too.
#[derive(Clone, Copy)]
pub struct Session {
    pub store: Store,
    pub appender: Appender,
    pub medium: Medium,
    pub formatted: bool,
    pub created: bool,
}

// What an accepted line is answered: `ok` and a number, for a list with so many rows after it.
#[derive(Clone, Copy)]
pub enum Reply {
    Number(u64),
    Rows(usize),
}

#[derive(Clone, Copy)]
pub struct Told {
    pub session: Session,
    pub reply: Result<Reply, Error>,
}

// Before the first line. No sector is unreadable: none has the last number.
#[tactic(auto, unfolding(crate::specs::Session::start_of))]
pub fn start() -> Session
    ensures { result ≡ start_of }
{
    Session {
        store: handles::no_store(),
        appender: append::no_appender(),
        medium: Medium {
            left: 0xffff_ffff,
            unreadable: 0xffff_ffff_ffff_ffff,
            entropy: 0,
            token: 0,
        },
        formatted: false,
        created: false,
    }
}

// All writes allowed, for each line anew.
#[tactic(auto, unfolding(crate::specs::Session::allowed_of))]
fn allowed(s: Session) -> Session
    ensures { result ≡ allowed_of s }
{
    Session {
        medium: Medium {
            left: 0xffff_ffff,
            ..s.medium
        },
        ..s
    }
}

// A refused format leaves the store of the one before it.
fn format_line(volume: &mut [u8], s: &mut Session, size: u32, seed: u64) -> Result<Reply, Error>
    ensures { turn volume.new s.new (said_of result) ≡ format_line volume.old s.old size seed }
{
    let r = store::format(volume, s.medium, size, seed);
    s.medium = r.medium;
    r.outcome?;
    s.store = r.store;
    s.formatted = true;
    Ok(Reply::Number(r.store.chunks() as u64))
}

// The store of a word that needs one: before an accepted format the word is refused with 5.
#[tactic(auto, unfolding(crate::specs::Session::store_of, le::specs::Choice::pick))]
fn held_store(s: &Session) -> Result<Store, Error>
    ensures { result ≡ store_of s.now }
{
    if !s.formatted {
        return Err(Error::Uninitialized);
    }
    Ok(s.store)
}

// A refused create leaves the appender of the one before it, beside the store that a rollover may have left.
fn create_line(
    volume: &mut [u8],
    s: &mut Session,
    name: &[u8],
    rolls: bool,
    dir: &[u8],
) -> Result<Reply, Error>
    ensures { turn volume.new s.new (said_of result)
        ≡ after_format volume.old s.old (create_line volume.old s.old name.now (pick rolls (rollover dir.now) no_rollover)) }
{
    let store = held_store(s)?;
    let r = store::create(volume, s.medium, store, name, rolls, dir);
    s.medium = r.medium;
    s.store = r.store;
    r.outcome?;
    s.appender = r.appender;
    s.created = true;
    Ok(Reply::Number(r.appender.id as u64))
}

// What stands after an append or a sync is held, refused or not; it is answered the bytes until a record.
fn flushed(s: &mut Session, f: Handed) -> Result<Reply, Error>
    ensures { (s.new ≡ held_of s.old f.store f.appender f.medium)
        × (said_of result ≡ room_said (outcome_of f.outcome) (room_call f.appender)) }
{
    s.store = f.store;
    s.appender = f.appender;
    s.medium = f.medium;
    f.outcome?;
    match f.appender.room() {
        Room::Refused(e) => Err(e),
        Room::Is(n) => Ok(Reply::Number(n as u64)),
    }
}

// The handles of append and sync: before an accepted format the word is refused with 5, before an accepted create with 11.
#[tactic(auto, unfolding(crate::specs::Session::store_of, crate::specs::Session::handles_of, le::specs::Choice::pick))]
fn handles(s: &Session) -> Result<(Store, Appender), Error>
    ensures { result ≡ handles_of s.now }
{
    let store = held_store(s)?;
    if !s.created {
        return Err(Error::Stale);
    }
    Ok((store, s.appender))
}

fn append_line(volume: &mut [u8], s: &mut Session, text: &[u8]) -> Result<Reply, Error>
    ensures { turn volume.new s.new (said_of result) ≡ after_create volume.old s.old (append_line volume.old s.old text.now) }
{
    let (store, appender) = handles(s)?;
    flushed(s, appender.append(volume, s.medium, store, text))
}

fn sync_line(volume: &mut [u8], s: &mut Session) -> Result<Reply, Error>
    ensures { turn volume.new s.new (said_of result) ≡ after_create volume.old s.old (sync_line volume.old s.old) }
{
    let (store, appender) = handles(s)?;
    flushed(s, appender.sync(volume, s.medium, store))
}

fn delete_line(volume: &mut [u8], s: &mut Session, name: &[u8]) -> Result<Reply, Error>
    ensures { turn volume.new s.new (said_of result) ≡ after_format volume.old s.old (delete_line volume.old s.old name.now) }
{
    let store = held_store(s)?;
    let r = store::delete(volume, s.medium, store, name);
    s.medium = r.medium;
    s.store = r.store;
    r.outcome?;
    Ok(Reply::Number(0))
}

// Every file: the root's.
fn list_line(volume: &[u8], s: &mut Session, rows: &mut [u8]) -> Result<Reply, Error>
    ensures { (turn volume.now s.new (said_of result), rows.new) ≡ line_step volume.now s.old rows.old list }
{
    let store = held_store(s)?;
    let mut counts = [0u16; 64];
    let l = store::list(volume, s.medium, store, b"", &mut counts, rows);
    s.medium = l.medium;
    l.outcome?;
    Ok(Reply::Rows(l.count))
}

// A line by its word, with all writes allowed.
fn line_reply(
    volume: &mut [u8],
    s: &mut Session,
    line: &[u8],
    rows: &mut [u8],
) -> Result<Reply, Error>
    ensures { (turn volume.new s.new (said_of result), rows.new) ≡ line_step volume.old s.old rows.old (line_of line.now) }
{
    match words::parse(line) {
        Parsed::Other => Err(Error::Range),
        Parsed::Format { size, seed } => format_line(volume, s, size, seed),
        Parsed::Create { name, rollover } => create_line(
            volume,
            s,
            name,
            rollover.is_some(),
            rollover.unwrap_or(b""),
        ),
        Parsed::Append { text } => append_line(volume, s, text),
        Parsed::Sync => sync_line(volume, s),
        Parsed::Delete { name } => delete_line(volume, s, name),
        Parsed::List => list_line(&volume[..], s, rows),
    }
}

// One line of any bytes and any length, without its line feed. A list fills `rows`; no other line touches them.
pub fn step(volume: &mut [u8], session: Session, line: &[u8], rows: &mut [u8]) -> Told
    ensures { (turn_of volume.new result, rows.new) ≡ step_of volume.old session rows.old line.now }
{
    let mut session = allowed(session);
    let reply = line_reply(volume, &mut session, line, rows);
    Told { session, reply }
}
