// What reading both copies answers. `Current` stands apart from the function `current`, since two items of one module may not differ in case alone.
use super::codec::Replica;
use handles::{Header, Store};
use medium::Error;

// Both copies: their headers and, beside them, their kinds. A copy that is not valid has a blank header.
#[derive(Clone, Copy)]
pub struct Copies {
    pub outcome: Result<(), Error>,
    pub heads: [Header; 2],
    pub a: Replica,
    pub b: Replica,
}

// The copy that is current. With `known`, the other copy's body holds the sectors whose checksums are in `listed`.
#[derive(Clone, Copy)]
pub struct Current {
    pub outcome: Result<(), Error>,
    pub copy: u64,
    pub head: Header,
    pub known: bool,
    pub listed: [u32; 24],
}

#[derive(Clone, Copy)]
pub struct Mounted {
    pub outcome: Result<(), Error>,
    pub store: Store,
}
