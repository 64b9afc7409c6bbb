//! The first steps with the library: opens a design, commits an edit, meets a conflict, and shows the version that came of it.
#![tactic(auto)]

ghost use Rattle.std.specs.Prelude.{◌≡◌, IfOk};
ghost use Rattle.db_core.specs.Story.{IsPinOf};
ghost use Rattle.first_steps.specs.Pins.{IsPinBy, KeepsPins};

use db_core::{CommitError, Core, Pin, PinError, Tx};
use edif_file::{DesignReader, NoDesign};
use edif_writer::write_design;
use edit_spec::{CellName, Op};
use flat_report::item_text;
use netdb_outside::{HostOut, WriteError};
use netlist_schema::{Design, Ident, NoMemory};
use occ_walk::{Walk, WalkError};
use std::alloc::{AllocError, Global};
use std::{env, fs, io};
use thiserror::Error;

/// Why the program ends early.
#[derive(Debug, Error, Drop)]
enum Stop {
    #[error("{0}")]
    Io(#[from] io::Error),
    #[error("{0}")]
    NoDesign(#[from] NoDesign),
    #[error("{0}")]
    NoPin(#[from] PinError),
    #[error("{0}")]
    NoWalk(#[from] WalkError),
    #[error("{0}")]
    NotWritten(#[from] WriteError),
    #[error("{0}")]
    NoMemory(#[from] NoMemory),
    #[error("no identifier")]
    NoIdent,
}

impl From<AllocError> for Stop {
    fn from(error: AllocError) -> Stop {
        Stop::NoMemory(NoMemory::from(error))
    }
}

fn ident(alloc: Global, name: &str) -> Result<Ident, Stop> {
    Ident::of(alloc, name.as_bytes())?.ok_or(Stop::NoIdent)
}

/// The design of a file.
fn open(rt: &HostRuntime, name: &str) -> Result<Design, Stop> {
    let bytes = fs::read(rt, name)?;
    let mut reader = DesignReader::new(rt.alloc());
    reader.feed(&bytes)?;
    Ok(reader.finish()?)
}

/// Adds a net to the cell `top` of the library `work`, as far as the transaction goes.
fn add_net(rt: &HostRuntime, tx: &mut Tx, net: &str) -> Result<(), Stop>
    ensures { tx.new.pin ≡ tx.old.pin }
{
    let alloc = rt.alloc();
    let cell = CellName {
        lib: ident(alloc, "work")?,
        cell: ident(alloc, "top")?,
    };
    let net = ident(alloc, net)?;
    let reply = tx.run(Op::AddNet { cell, net })?;
    println!(rt; "{reply:?}")?;
    Ok(())
}

/// Pins the last version for a caller, and opens a transaction on it.
fn begin(rt: &HostRuntime, core: &mut Core, caller: u32) -> Result<Tx, Stop>
    ensures pin { IfOk result (λ tx. IsPinBy core.new caller tx.pin) }
    ensures others { KeepsPins core.old core.new }
{
    core.history_is_legal();
    let pin = core.pin(caller)?;
    match Tx::start(rt.alloc(), pin) {
        Ok(tx) => Ok(tx),
        Err((error, _)) => Err(Stop::NoMemory(error)),
    }
}

/// Commits, says what came of it, and gives the pin back.
fn commit(rt: &HostRuntime, core: &mut Core, tx: Tx) -> Result<Pin, Stop>
    requires { IsPinOf core.old tx.pin }
    ensures pin { IfOk result (λ pin. pin ≡ tx.pin) }
    ensures others { KeepsPins core.old core.new }
{
    core.history_is_legal();
    match core.commit(tx) {
        Ok((version, pin)) => {
            println!(rt; "committed {version}")?;
            Ok(pin)
        }
        Err((error, tx)) => {
            println!(rt; "not committed: {error}")?;
            Ok(tx.abandon())
        }
    }
}

/// Two callers add the same net on the same version. The second commit is refused, since the first wrote what it read.
fn edit(rt: &HostRuntime, core: &mut Core) -> Result<(), Stop> {
    let mut ours = begin(rt, core, 0)?;
    let mut theirs = begin(rt, core, 1)?;
    add_net(rt, &mut ours, "spare")?;
    add_net(rt, &mut theirs, "spare")?;
    let our_pin = commit(rt, core, ours)?;
    let their_pin = commit(rt, core, theirs)?;
    core.history_is_legal();
    core.release(our_pin);
    core.release(their_pin);
    Ok(())
}

/// The first items of the flattening of the last version, one a line.
fn walk(rt: &HostRuntime, core: &Core) -> Result<(), Stop> {
    let mut walk = Walk::new(rt.alloc(), core.head())?;
    for _ in 0..8 {
        let Some(item) = walk.next()? else {
            break;
        };
        let mut line = Vec::new(rt.alloc());
        item_text(rt.alloc(), core.head(), &item, &mut line)?;
        print!(rt; "{}", String::from_utf8_lossy(rt.alloc(), &line)?)?;
    }
    Ok(())
}

fn run(rt: &HostRuntime, name: &str) -> Result<(), Stop> {
    let mut core = Core::new(rt.alloc(), open(rt, name)?)?;
    edit(rt, &mut core)?;
    walk(rt, &core)?;
    write_design(rt.alloc(), core.head(), &mut HostOut::new(rt))?;
    Ok(())
}

fn main(rt: HostRuntime) -> io::Result<()> {
    let Some(name) = env::args(&rt)?.nth(1) else {
        return eprintln!(rt; "first_steps: wants the name of a design file");
    };
    match run(&rt, &name) {
        Ok(()) => Ok(()),
        Err(stop) => eprintln!(rt; "first_steps: {stop}"),
    }
}
