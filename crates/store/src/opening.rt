// The calls on offer that open a file to append.
ghost use Rattle.std.specs.Prelude.{◌≡◌, true, ◌≤◌, length};
ghost use Rattle.append.specs.Calls.{app_answer};
ghost use Rattle.store.specs.Opening.{open_fine, rollover_of, admitted_of, create_call, open_call};

use append::{Dir, Handed};
use files::Rollover;
use handles::Store;
use medium::{Error, Medium};

// The name passes its rule, and the directory where it is set.
fn open_fine(name: &[u8], rolls: bool, dir: &[u8]) -> bool
    ensures { result ≡ open_fine name.now rolls dir.now }
{
    let named = names::name_ok(name);
    let fine = names::dir_ok(dir);
    named & (!rolls | fine)
}

// Refusals 3, 1 and 16 of a call that opens a file to append, in this order.
#[tactic(auto, using(crate::proofs::Admits::dot_refused))]
fn admitted(volume: &[u8], store: Store, name: &[u8], rolls: bool, dir: &[u8]) -> Result<(), Error>
    ensures { result ≡ admitted_of volume.now store name.now rolls dir.now }
{
    let o = crate::asked(volume, store, open_fine(name, rolls, dir));
    if let Err(e) = o {
        return Err(e);
    }
    if names::dotted(name) {
        return Err(Error::Dotted);
    }
    Ok(())
}

// The rollover of a call. One that is not set has no directory.
fn rollover_of(rolls: bool, dir: &[u8]) -> Rollover
    requires { rolls ≡ true → length dir.now ≤ 40 }
    ensures { result ≡ rollover_of rolls dir.now }
{
    let mut bytes = [0u8; 40];
    if !rolls {
        return Rollover {
            rolls,
            dir: Dir { bytes, length: 0 },
        };
    }
    runs::put_bytes(&mut bytes, 0, dir);
    Rollover {
        rolls,
        dir: Dir {
            bytes,
            length: dir.len(),
        },
    }
}

// Create a file and open it to append. `rolls`: where a slot or chunk is lacking, the oldest file in `dir` goes.
pub fn create(
    volume: &mut [u8],
    medium: Medium,
    store: Store,
    name: &[u8],
    rolls: bool,
    dir: &[u8],
) -> Handed
    ensures { (volume.new ≡ (create_call volume.old medium store name.now rolls dir.now).vol)
        × (app_answer result ≡ (create_call volume.old medium store name.now rolls dir.now).call) }
{
    let o = admitted(&volume[..], store, name, rolls, dir);
    if let Err(e) = o {
        return files::refused(e, medium, store);
    }
    let over = rollover_of(rolls, dir);
    files::create(volume, medium, store, name, over)
}

// Open a file to append to what it holds. It only reads; `rolls` and `dir` are for the appender.
pub fn open_append(
    volume: &[u8],
    medium: Medium,
    store: Store,
    name: &[u8],
    rolls: bool,
    dir: &[u8],
) -> Handed
    ensures { app_answer result ≡ (open_call volume.now medium store name.now rolls dir.now).call }
{
    let o = admitted(volume, store, name, rolls, dir);
    if let Err(e) = o {
        return files::refused(e, medium, store);
    }
    let over = rollover_of(rolls, dir);
    reopen::open_append(volume, medium, store, name, over)
}
