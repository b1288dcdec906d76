// The two header copies of a volume: read, the current one taken, and written in place.
#![tactic(auto)]

mod answers;
mod codec;

ghost use Rattle.std.specs.Prelude.{◌≡◌, ◌<◌, ◌≤◌};
ghost use Rattle.medium.specs.Sector.{sectors_of, write_of};
ghost use Rattle.handles.specs.Handles.{base_of};
ghost use Rattle.header.specs.Header.{encode_of, unmarked_of};
ghost use Rattle.header.specs.Copies.{is_ours, is_foreign, is_damaged, copy_of, no_copies, headers_of, takes_b, same_store, taken_of, no_current};
ghost use Rattle.header.specs.Copies.{choice_of, current_of, mount_of};

pub use answers::{Copies, Current, Mounted};
pub use codec::{Decoded, Replica, decode, encode, encode_unmarked};
use handles::{Header, Store};
use medium::{Error, Medium, Written};

// A copy that is valid.
pub fn is_ours(k: Replica) -> bool
    ensures { result ≡ is_ours k }
{
    match k {
        Replica::Ours => true,
        Replica::Foreign => false,
        Replica::Damaged => false,
        Replica::Absent => false,
    }
}

fn is_foreign(k: Replica) -> bool
    ensures { result ≡ is_foreign k }
{
    match k {
        Replica::Ours => false,
        Replica::Foreign => true,
        Replica::Damaged => false,
        Replica::Absent => false,
    }
}

fn is_damaged(k: Replica) -> bool
    ensures { result ≡ is_damaged k }
{
    match k {
        Replica::Ours => false,
        Replica::Foreign => false,
        Replica::Damaged => true,
        Replica::Absent => false,
    }
}

fn no_copies(e: Error) -> Copies
    ensures { result ≡ no_copies e }
{
    let head = handles::blank();
    Copies {
        outcome: Err(e),
        heads: [head, head],
        a: Replica::Absent,
        b: Replica::Absent,
    }
}

// The copy in sector `at`, judged where it stands.
fn copy_at(volume: &[u8], at: u64) -> Decoded
    requires { at < sectors_of volume.now }
    ensures { result ≡ copy_of volume.now at }
{
    let a = 512 * (at as usize);
    decode(&volume[a..a + 512], medium::sectors(volume))
}

// Both copies, A first. A foreign one refuses.
pub fn headers(volume: &[u8], medium: Medium) -> Copies
    ensures { result ≡ headers_of volume.now medium }
{
    if medium::sectors(volume) < 64 {
        return no_copies(Error::Range);
    }
    let ra = medium::readable(medium, 0);
    if let Err(e) = ra {
        return no_copies(e);
    }
    let a = copy_at(volume, 0);
    let ka = a.kind;
    if is_foreign(ka) {
        return no_copies(Error::Foreign);
    }
    let rb = medium::readable(medium, 32);
    if let Err(e) = rb {
        return no_copies(e);
    }
    let b = copy_at(volume, 32);
    let kb = b.kind;
    if is_foreign(kb) {
        return no_copies(Error::Foreign);
    }
    let ha = a.head;
    let hb = b.head;
    Copies {
        outcome: Ok(()),
        heads: [ha, hb],
        a: ka,
        b: kb,
    }
}

// Whether mount takes copy B.
pub fn takes_b(c: Copies) -> bool
    ensures { result ≡ takes_b c }
{
    let ka = c.a;
    let kb = c.b;
    let x = c.heads[0];
    let y = c.heads[1];
    is_ours(kb) & (!is_ours(ka) | (x.generation < y.generation))
}

fn same_store(x: Header, y: Header) -> bool
    ensures { result ≡ same_store x y }
{
    (x.id == y.id) & ((x.chunks == y.chunks) & (x.chunk == y.chunk))
}

fn taken(copy: u64, head: Header, other: Header, valid: bool) -> Current
    ensures { result ≡ taken_of copy head other valid }
{
    let same = same_store(head, other);
    let listed = other.crcs;
    Current {
        outcome: Ok(()),
        copy,
        head,
        known: valid & same,
        listed,
    }
}

fn no_current(e: Error) -> Current
    ensures { result ≡ no_current e }
{
    let head = handles::blank();
    Current {
        outcome: Err(e),
        copy: 0,
        head,
        known: false,
        listed: [0u32; 24],
    }
}

fn choice(c: Copies) -> Current
    ensures { result ≡ choice_of c }
{
    let ka = c.a;
    let kb = c.b;
    let x = c.heads[0];
    let y = c.heads[1];
    let a = is_ours(ka);
    if takes_b(c) {
        return taken(1, y, x, a);
    }
    if a {
        return taken(0, x, y, is_ours(kb));
    }
    if is_damaged(ka) | is_damaged(kb) {
        return no_current(Error::Corrupt);
    }
    no_current(Error::Uninitialized)
}

// The current copy, and what the other one holds.
pub fn current(volume: &[u8], medium: Medium) -> Current
    ensures { result ≡ current_of volume.now medium }
{
    let c = headers(volume, medium);
    let o = c.outcome;
    if let Err(e) = o {
        return no_current(e);
    }
    choice(c)
}

// The current metadata of the store on the volume.
pub fn mount(volume: &[u8], medium: Medium) -> Mounted
    ensures { result ≡ mount_of volume.now medium }
{
    let c = current(volume, medium);
    let o = c.outcome;
    if let Err(e) = o {
        let store = handles::no_store();
        return Mounted {
            outcome: Err(e),
            store,
        };
    }
    let head = c.head;
    let free = freemap::unfit();
    let store = Store {
        copy: c.copy,
        head,
        writer: None,
        free,
    };
    Mounted {
        outcome: Ok(()),
        store,
    }
}

// Writes a header to its copy's sector, where a write is left.
pub fn write_head(volume: &mut [u8], medium: Medium, copy: u64, head: Header) -> Written
    requires { (64 ≤ sectors_of volume.old) × (head.chunks ≤ 2048) }
    ensures { (volume.new ≡ (write_of volume.old medium (base_of copy) (encode_of head)).vol)
        × (result ≡ (write_of volume.old medium (base_of copy) (encode_of head)).ans) }
{
    let w = medium::spend(medium);
    let o = w.outcome;
    if let Err(_) = o {
        return w;
    }
    let a = 512 * (handles::base(copy) as usize);
    encode(head, &mut volume[a..a + 512]);
    w
}

// Writes a header without its magic: format's first write.
pub fn write_unmarked(volume: &mut [u8], medium: Medium, copy: u64, head: Header) -> Written
    requires { (64 ≤ sectors_of volume.old) × (head.chunks ≤ 2048) }
    ensures { (volume.new ≡ (write_of volume.old medium (base_of copy) (unmarked_of head)).vol)
        × (result ≡ (write_of volume.old medium (base_of copy) (unmarked_of head)).ans) }
{
    let w = medium::spend(medium);
    let o = w.outcome;
    if let Err(_) = o {
        return w;
    }
    let a = 512 * (handles::base(copy) as usize);
    encode_unmarked(head, &mut volume[a..a + 512]);
    w
}
