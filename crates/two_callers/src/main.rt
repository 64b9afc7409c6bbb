//! Two callers, each in a thread of its own, add a net to the same cell. Where the other's commit came between, a caller begins again on
//! the version that this made.
#![tactic(auto)]

ghost use Rattle.std.specs.Prelude.{◌≡◌, ◌<◌, ℕ, All, IfOk, slice_index_or, vec_len};
ghost use Rattle.db_share.specs.Passes.{IsReady};
ghost use Rattle.db_share.specs.Calls.{Stays};

use db_share::{CommitError, Core, Db, Pass, PinError, Tx};
use edif_file::{DesignReader, NoDesign};
use edit_spec::{CellName, Op};
use netlist_schema::{Design, Ident, NoMemory};
use std::alloc::{AllocError, Global};
use std::sync::Wait;
use std::thread::Threads;
use std::{env, fs, io, thread};
use thiserror::Error;

/// How often a caller tries.
const TRIES: u32 = 8;

/// Why the program, or one caller, ends early.
#[derive(Debug, Error, Drop)]
enum Stop {
    #[error("{0}")]
    Io(#[from] io::Error),
    #[error("{0}")]
    NoDesign(#[from] NoDesign),
    #[error("{0}")]
    NoPin(#[from] PinError),
    #[error("{0}")]
    NoCommit(#[from] CommitError),
    #[error("{0}")]
    NoMemory(#[from] NoMemory),
    #[error("no identifier")]
    NoIdent,
}

impl From<AllocError> for Stop {
    fn from(error: AllocError) -> Stop {
        Stop::NoMemory(NoMemory::from(error))
    }
}

fn ident(alloc: Global, name: &str) -> Result<Ident, Stop> {
    Ident::of(alloc, name.as_bytes())?.ok_or(Stop::NoIdent)
}

/// The design of a file.
fn open(rt: &HostRuntime, name: &str) -> Result<Design, Stop> {
    let bytes = fs::read(rt, name)?;
    let mut reader = DesignReader::new(rt.alloc());
    reader.feed(&bytes)?;
    Ok(reader.finish()?)
}

/// Adds a net to the cell `top` of the library `work`.
fn add_net(alloc: Global, tx: &mut Tx, net: &str) -> Result<(), Stop>
    ensures { tx.new.pin ≡ tx.old.pin }
{
    let cell = CellName {
        lib: ident(alloc, "work")?,
        cell: ident(alloc, "top")?,
    };
    let net = ident(alloc, net)?;
    tx.run(Op::AddNet { cell, net })?;
    Ok(())
}

/// One try on the last version: whether its commit was accepted, which it is unless another one came between.
fn attempt(rt: &impl Wait, alloc: Global, db: &Db, pass: &mut Pass, net: &str) -> Result<bool, Stop>
    requires { IsReady db.now pass.old }
    ensures { Stays db.now pass.old pass.new }
{
    let pin = db.pin(rt, alloc, pass)?;
    let mut tx = match Tx::start(alloc, pin) {
        Ok(tx) => tx,
        Err((error, pin)) => {
            db.release(rt, pass, pin);
            return Err(Stop::NoMemory(error));
        }
    };
    if let Err(stop) = add_net(alloc, &mut tx, net) {
        db.release(rt, pass, tx.abandon());
        return Err(stop);
    }
    match db.commit(rt, alloc, pass, tx) {
        Ok((_, pin)) => {
            db.release(rt, pass, pin);
            Ok(true)
        }
        Err((error, tx)) => {
            db.release(rt, pass, tx.abandon());
            match error {
                CommitError::Conflict { .. } => Ok(false),
                _ => Err(Stop::NoCommit(error)),
            }
        }
    }
}

/// A caller: it tries until its net is there, or it has to stop.
fn call(rt: &impl Wait, alloc: Global, db: &Db, mut pass: Pass) -> Pass
    requires { IsReady db.now pass }
    ensures { Stays db.now pass result }
{
    let net = if pass.number() == 0 { "even" } else { "odd" };
    for _ in 0..TRIES {
        match attempt(rt, alloc, db, &mut pass, net) {
            Ok(false) => {}
            _ => return pass,
        }
    }
    pass
}

/// The callers beside each other.
fn call_all<R: Threads + Wait + Sync>(
    rt: &R,
    alloc: Global,
    db: &Db,
    passes: Vec<Pass>,
) -> Result<Vec<Pass>, Stop>
    requires { All (λ p. IsReady db.now p) passes.items }
    ensures len { IfOk result (λ v. vec_len v ≡ vec_len passes) }
    ensures each { IfOk result (λ v. (k : ℕ) (d : _) → k < vec_len passes → Stays db.now (slice_index_or passes.items k d) (slice_index_or v.items k d)) }
{
    Ok(thread::map_vec(
        rt,
        passes,
        &|pass: Pass| -> Pass
            requires { IsReady db.now pass }
            ensures { Stays db.entry.now pass result }
        { call(rt, alloc, db, pass) },
    )?)
}

/// The core of a database, when all its callers are done.
fn core_of<R: Threads + Wait + Sync>(rt: &R, alloc: Global, design: Design) -> Result<Core, Stop> {
    let (db, passes) = Db::new(alloc, design, 2)?;
    let passes = call_all(rt, alloc, &db, passes)?;
    Ok(db.close(passes))
}

/// Runs the callers on a design, and prints the number of the last version.
fn run<R: Threads + Wait + Sync + Print>(
    rt: &R,
    alloc: Global,
    design: Design,
) -> Result<(), Stop> {
    let core = core_of(rt, alloc, design)?;
    println!(rt; "last version: {}", core.head().version())?;
    Ok(())
}

fn main(rt: HostRuntime) -> io::Result<()> {
    let Some(name) = env::args(&rt)?.nth(1) else {
        return eprintln!(rt; "two_callers: wants the name of a design file");
    };
    let ended = match open(&rt, &name) {
        Ok(design) => run(&rt, rt.alloc(), design),
        Err(stop) => Err(stop),
    };
    match ended {
        Ok(()) => Ok(()),
        Err(stop) => eprintln!(rt; "two_callers: {stop}"),
    }
}
