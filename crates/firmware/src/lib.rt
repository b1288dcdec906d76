// The calls of C firmware (include/store.h): numbers and byte slices, no handle between calls. A slice crosses as a pointer and a length.
// Each call tests its arguments, mounts unless it is format, and returns the number of a refusal, or 256 and the answer.
#![tactic(auto)]

ghost use Rattle.std.specs.Prelude.{◌≡◌, ◌≤◌, Ok};
ghost use Rattle.medium.specs.Refusal.{outcome_of};
ghost use Rattle.firmware.specs.Calls.{code_of, giving, medium_of, mount_host, format_host, delete_host, list_host};

use medium::{Error, Medium};

// The medium record of a call; no appender is opened, so the token stays 0.
fn medium_of(left: u32, unreadable: u64, entropy: u64) -> Medium
    ensures { result ≡ medium_of left unreadable entropy }
{
    Medium {
        left,
        unreadable,
        entropy,
        token: 0,
    }
}

// What a call returns at an outcome.
fn code(o: Result<(), Error>, answer: u32) -> u32
    requires { o ≡ Ok tt → answer ≤ 2048 }
    ensures { result ≡ code_of (giving (outcome_of o) answer) }
{
    match o {
        Ok(()) => 256 + answer,
        Err(e) => medium::number(e),
    }
}

// The chunks of the store in the volume.
#[unsafe(no_mangle)]
pub extern "C" fn store_mount(volume: &[u8], left: u32, unreadable: u64, entropy: u64) -> u32
    ensures { result ≡ mount_host volume.now (medium_of left unreadable entropy) }
{
    let m = store::mount(volume, medium_of(left, unreadable, entropy));
    code(m.outcome, m.store.chunks())
}

// A new, empty store with chunks of `size` sectors, and how many there are.
#[unsafe(no_mangle)]
pub extern "C" fn store_format(
    volume: &mut [u8],
    left: u32,
    unreadable: u64,
    entropy: u64,
    size: u32,
    seed: u64,
) -> u32
    ensures { (result, volume.new) ≡ format_host volume.old (medium_of left unreadable entropy) size seed }
{
    let f = store::format(volume, medium_of(left, unreadable, entropy), size, seed);
    code(f.outcome, f.store.chunks())
}

// Deletes a file.
#[unsafe(no_mangle)]
pub extern "C" fn store_delete(
    volume: &mut [u8],
    left: u32,
    unreadable: u64,
    entropy: u64,
    name: &[u8],
) -> u32
    ensures { (result, volume.new) ≡ delete_host volume.old (medium_of left unreadable entropy) name.now }
{
    if !names::name_ok(name) {
        return medium::number(Error::Name);
    }
    let m = store::mount(&volume[..], medium_of(left, unreadable, entropy));
    if let Err(e) = m.outcome {
        return medium::number(e);
    }
    let d = store::delete(volume, m.medium, m.store, name);
    code(d.outcome, 0)
}

// The files in a directory as 48-byte rows, and how many there are. The rows made before a refusal stay.
#[tactic(auto, using(crate::proofs::Ways::rows_refused))]
#[unsafe(no_mangle)]
pub extern "C" fn store_list(
    volume: &[u8],
    left: u32,
    unreadable: u64,
    entropy: u64,
    directory: &[u8],
    rows: &mut [u8],
) -> u32
    ensures { (result, rows.new) ≡ list_host volume.now (medium_of left unreadable entropy) directory.now rows.old }
{
    if rows.len() < 3072 {
        return medium::number(Error::Range);
    }
    if !names::dir_ok(directory) {
        return medium::number(Error::Name);
    }
    let found = store::mount(volume, medium_of(left, unreadable, entropy));
    if let Err(e) = found.outcome {
        return medium::number(e);
    }
    let mut counts = [0u16; 64];
    let l = store::list(
        volume,
        found.medium,
        found.store,
        directory,
        &mut counts,
        rows,
    );
    code(l.outcome, l.count as u32)
}
