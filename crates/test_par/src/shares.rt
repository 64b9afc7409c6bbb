//! Workers that share the work.
ghost use Rattle.std.specs.Prelude.{◌≤◌};

use crate::designs::{counter, tree};
use crate::measures::{OpenGate, TallyGate};
use crate::turns::{TurnGate, Watched};
use flat_writer::write_flat;
use netdb_outside::{Hold, HoldGate, MemSink};
use netlist_schema::{Design, Row};
use par_flat::{par_flat, write_par_flat};
use std::alloc::Global;
use std::process::Abort;
use std::sync::atomic::{AtomicU64, Ordering};
use std::test::Fail;
use std::thread::Threads;

/// A gate that holds the second worker at its begin until the first one has ended.
fn in_turn(alloc: Global) -> Result<HoldGate, Fail> {
    let holds = vec![in alloc;
        Hold {
            caller: 1,
            line: 1,
            until_caller: 0,
            until_line: 2,
        },
    ]?;
    Ok(HoldGate::new(alloc, Row::of(holds))?)
}

/// Between its begin and its end each of two workers did about a half of what one walk does.
fn are_even(rt: &impl Abort, looks: (u64, u64), whole: u64) {
    let (first, second) = looks;
    assert!(rt;
        first / 2 < second && second / 2 < first,
        "{first} and {second} looks"
    );
    assert!(rt; whole / 4 < first, "{first} looks of {whole}");
}

/// How often one walk looks at the design.
fn looks_of_walk(rt: &impl Abort, alloc: Global, design: &Design) -> u64 {
    let looks = AtomicU64::new(0);
    let watched = Watched {
        design,
        looks: &looks,
    };
    let mut out = MemSink::new(alloc, None);
    write_flat(alloc, &watched, None, &mut out).expect(rt, "a text");
    looks.load(Ordering::SeqCst)
}

/// Each of two workers writes a half.
fn writes_halves<R: Threads + Abort + Sync>(
    rt: &R,
    alloc: Global,
    design: &Design,
    hold: &HoldGate,
) {
    let looks = AtomicU64::new(0);
    let watched = Watched {
        design,
        looks: &looks,
    };
    let gate = TurnGate::new(hold, &looks);
    let mut out = MemSink::new(alloc, None);
    write_par_flat(rt, alloc, &watched, 2, &gate, &mut out).expect(rt, "a text");
    are_even(rt, gate.looks(), looks_of_walk(rt, alloc, design));
    assert!(rt; !hold.failed(), "a worker that was not held");
}

/// Each of two workers gives a half.
fn gives_halves<R: Threads + Abort + Sync>(
    rt: &R,
    alloc: Global,
    design: &Design,
    hold: &HoldGate,
) {
    let looks = AtomicU64::new(0);
    let watched = Watched {
        design,
        looks: &looks,
    };
    let gate = TurnGate::new(hold, &looks);
    let items = par_flat(rt, alloc, &watched, 2, &gate).expect(rt, "items");
    let (first, second) = gate.looks();
    assert!(rt;
        first / 2 < second && second / 2 < first,
        "{first} and {second} looks"
    );
    assert!(rt; items.as_slice().len() as u64 / 4 < first, "{first} looks");
    assert!(rt; !hold.failed(), "a worker that was not held");
}

#[test]
fn each_of_two_workers_writes_a_half(rt: HostRuntime) -> Result<(), Fail> {
    let tree = tree(rt.alloc())?;
    let hold = in_turn(rt.alloc())?;
    writes_halves(&rt, rt.alloc(), &tree, &hold);
    Ok(())
}

#[test]
fn each_of_two_workers_gives_a_half(rt: HostRuntime) -> Result<(), Fail> {
    let tree = tree(rt.alloc())?;
    let hold = in_turn(rt.alloc())?;
    gives_halves(&rt, rt.alloc(), &tree, &hold);
    Ok(())
}

/// So many workers, each of whom calls the gate once at its begin and once at its end, write a small design, in one round.
fn tell_writing<R: Threads + Abort + Sync>(rt: &R, alloc: Global, design: &Design, workers: u32)
    requires { (1 ≤ workers) × (workers ≤ 64) }
{
    let gate = TallyGate::new();
    let mut out = MemSink::new(alloc, None);
    write_par_flat(rt, alloc, design, workers, &gate, &mut out).expect(rt, "a text");
    assert!(rt; gate.told_all(workers), "others told than {workers}");
}

/// The same where they give it.
fn tell_giving<R: Threads + Abort + Sync>(rt: &R, alloc: Global, design: &Design, workers: u32)
    requires { (1 ≤ workers) × (workers ≤ 64) }
{
    let gate = TallyGate::new();
    let _items = par_flat(rt, alloc, design, workers, &gate).expect(rt, "items");
    assert!(rt; gate.told_all(workers), "others told than {workers}");
}

/// The same by any of some numbers of workers.
fn all_tell<R: Threads + Abort + Sync>(rt: &R, alloc: Global, design: &Design) {
    tell_writing(rt, alloc, design, 1);
    tell_writing(rt, alloc, design, 3);
    tell_writing(rt, alloc, design, 64);
    tell_giving(rt, alloc, design, 1);
    tell_giving(rt, alloc, design, 3);
    tell_giving(rt, alloc, design, 64);
}

#[test]
fn each_worker_calls_the_gate(rt: HostRuntime) -> Result<(), Fail> {
    let tree = tree(rt.alloc())?;
    all_tell(&rt, rt.alloc(), &tree);
    Ok(())
}

/// So many workers, whom nobody holds, write a small design one behind the other, and each calls the gate once at its begin and its end.
fn one_by_one<R: Threads + Abort + Sync>(rt: &R, alloc: Global, design: &Design, workers: u32)
    requires { (1 ≤ workers) × (workers ≤ 64) }
{
    let mut plain = MemSink::new(alloc, None);
    write_flat(alloc, design, None, &mut plain).expect(rt, "a text");
    let gate = OpenGate::new();
    let mut out = MemSink::new(alloc, None);
    write_par_flat(rt, alloc, design, workers, &gate, &mut out).expect(rt, "a text");
    assert!(rt;
        out.written() == plain.written(),
        "another text by {workers}"
    );
    assert!(rt; gate.tally.told_all(workers), "others told than {workers}");
    assert!(rt; !gate.have_met(), "two of {workers} at the same time");
}

#[test]
fn a_few_items_are_written_one_by_one(rt: HostRuntime) -> Result<(), Fail> {
    let counter = counter(rt.alloc())?;
    one_by_one(&rt, rt.alloc(), &counter, 1);
    one_by_one(&rt, rt.alloc(), &counter, 4);
    one_by_one(&rt, rt.alloc(), &counter, 64);
    Ok(())
}
