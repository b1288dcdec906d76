// The line program: lines in, lines out, over a zeroed volume of 128 sectors.
#![tactic(auto)]

mod input;
mod text;

ghost use Rattle.std.specs.Prelude.{◌≡◌, ◌-◌, ◌^◌, ◌≤◌, ◌<◌, length, take, drop, IfOk, OnOk, OnErr, IfSome};
ghost use Rattle.std.specs.Io.KnownBytes.{Appends, ReadConsumes};
ghost use Rattle.decimal.specs.Decimal.{Put};
ghost use Rattle.session.specs.Session.{start_of};
ghost use Rattle.lines.specs.Input.{lines_of};
ghost use Rattle.lines.specs.Program.{line_turn, line_text, printed_from, printed_of, held, piece_of, PassedAt, feed_of, StoppedIn, last_text};

use session::Session;
use std::io;
use std::io::{Read, Write};

// What is held after a line, and how many bytes its answer has.
#[derive(Clone, Copy)]
struct Answered {
    session: Session,
    count: usize,
}

// A line without its line feed; its answer goes to the start of `out`.
fn answer(volume: &mut [u8], session: Session, line: &[u8], out: &mut [u8]) -> Answered
    requires { 8192 ≤ length out.old }
    ensures { (volume.new ≡ (line_turn volume.old session line.now).0.vol)
        × (result.session ≡ (line_turn volume.old session line.now).0.session)
        × Put 0 (line_text volume.old session line.now) out.old out.new result.count
        × (result.count ≤ 8192) }
{
    let mut rows = [0u8; 3072];
    let t = session::step(volume, session, line, &mut rows);
    let count = text::put_reply(out, t.reply, &rows);
    Answered {
        session: t.session,
        count,
    }
}

// What stands after a piece of the input: where the next one starts, how many bytes of a line are kept, and how many bytes are to be written.
#[derive(Clone, Copy)]
struct Passed {
    session: Session,
    at: usize,
    fill: usize,
    count: usize,
}

// Up to the end of a line, or of what is there.
fn piece(
    volume: &mut [u8],
    session: Session,
    bytes: &[u8],
    at: usize,
    line: &mut [u8],
    fill: usize,
    out: &mut [u8],
) -> Passed
    requires { (at ≤ length bytes.now) × (fill ≤ 601) × (601 ≤ length line.old) × (8192 ≤ length out.old) }
    ensures { PassedAt result volume.new bytes.now line.new out.old out.new
        (piece_of (held volume.old session (take fill line.old)) (drop at bytes.now))
        × (result.at ≤ length bytes.now)
        × (result.fill ≤ 601)
        × (result.count ≤ 8192)
        × (at < length bytes.now → at < result.at) }
{
    let g = input::gather(bytes, at, &mut *line, fill);
    match g.next {
        None => Passed {
            session,
            at: bytes.len(),
            fill: g.fill,
            count: 0,
        },
        Some(next) => {
            let a = answer(volume, session, &line[..g.fill], out);
            Passed {
                session: a.session,
                at: next,
                fill: 0,
                count: a.count,
            }
        }
    }
}

// What is held after a part of the input.
#[derive(Clone, Copy)]
struct FedPart {
    session: Session,
    fill: usize,
}

// A part of the input, piece by piece, each answer written before the next piece.
fn feed<W: Write>(
    volume: &mut [u8],
    session: Session,
    bytes: &[u8],
    line: &mut [u8],
    fill: usize,
    out: &mut [u8],
    output: &mut W,
) -> io::Result<FedPart>
    requires { (fill ≤ 601) × (601 ≤ length line.old) × (8192 ≤ length out.old) }
    ensures held_after { IfOk result (λ r. (held volume.new r.session (take r.fill line.new)
        ≡ (feed_of (held volume.old session (take fill line.old)) bytes.now).held)
        × (r.fill ≤ 601)) }
    ensures written { OnOk result (Appends (W.contents output.old) (W.contents output.new)
        (feed_of (held volume.old session (take fill line.old)) bytes.now).text) }
    ensures stopped { OnErr result (StoppedIn (held volume.old session (take fill line.old)) bytes.now volume.new) }
{
    let mut fed = FedPart { session, fill };
    let mut at = 0;
    // no `for`: where a piece ends is known only once it is gathered
    while at < bytes.len() {
        let p = piece(
            &mut *volume,
            fed.session,
            bytes,
            at,
            &mut *line,
            fed.fill,
            &mut *out,
        );
        output.write_all(&out[..p.count])?;
        fed = FedPart {
            session: p.session,
            fill: p.fill,
        };
        at = p.at;
    }
    Ok(fed)
}

// The end of the input ends a last line, unless it is empty.
fn last(volume: &mut [u8], session: Session, line: &[u8], out: &mut [u8]) -> usize
    requires { 8192 ≤ length out.old }
    ensures { Put 0 (last_text (held volume.old session line.now)) out.old out.new result × (result ≤ 8192) }
{
    if line.is_empty() {
        return 0;
    }
    answer(volume, session, line, out).count
}

// Some bytes of the input at the start of the buffer, and how many: 0 at its end.
fn read_some<R: Read>(input: &mut R, bytes: &mut [u8]) -> io::Result<usize>
    ensures within { IfOk result (λ n. n ≤ length bytes.new) }
    ensures taken { ReadConsumes (R.remaining input.old) (R.remaining input.new) result bytes.new }
{
    input.read(bytes)
}

// The input to its end: where its bytes are known, and those that the output holds, what its lines ask for is written.
fn run<R: Read, W: Write>(
    input: &mut R,
    output: &mut W,
    volume: &mut [u8],
    bytes: &mut [u8],
    line: &mut [u8],
    out: &mut [u8],
) -> io::Result<()>
    requires { (601 ≤ length line.old) × (8192 ≤ length out.old) }
    ensures { OnOk result (IfSome (R.remaining input.old) (λ given. 0 < length bytes.old → length given < 2 ^ 64 - 1
        → Appends (W.contents output.old) (W.contents output.new) (printed_from volume.old start_of (lines_of given)))) }
{
    let mut session = session::start();
    let mut fill = 0;
    // nothing says that the input ends, so the turns are counted, up to a number that no run uses up
    for _ in 0..u64::MAX {
        let n = read_some(&mut *input, &mut *bytes)?;
        if n == 0 {
            break;
        }
        let fed = feed(
            &mut *volume,
            session,
            &bytes[..n],
            &mut *line,
            fill,
            &mut *out,
            &mut *output,
        )?;
        session = fed.session;
        fill = fed.fill;
    }
    let count = last(volume, session, &line[..fill], &mut *out);
    output.write_all(&out[..count])
}

// Over a zeroed volume.
fn answer_all<R: Read, W: Write>(input: &mut R, output: &mut W) -> io::Result<()>
    ensures { OnOk result (IfSome (R.remaining input.old) (λ given. length given < 2 ^ 64 - 1
        → Appends (W.contents output.old) (W.contents output.new) (printed_of given))) }
{
    let mut volume = [0u8; 65536];
    let mut bytes = [0u8; 4096];
    let mut line = [0u8; 601];
    let mut out = [0u8; 8192];
    run(input, output, &mut volume, &mut bytes, &mut line, &mut out)
}

fn main(rt: HostRuntime) -> io::Result<()> {
    answer_all(&mut rt.stdin(), &mut rt.stdout())
}
