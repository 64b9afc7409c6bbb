//! Texts of what was opened, by their numbers, on their way to a sink.
use crate::designs::{NO_TOP, PAIR};
use netdb_calls::{Call, DeskCall, Opened, Status, ask, open, open_view, report_to, write_to};
use netdb_outside::MemSink;
use std::alloc::Global;
use std::test::Fail;

/// The database of a design, with a pin at seat 0.
fn pinned(alloc: Global, text: &str) -> Result<Opened, Fail> {
    let Ok((mut db, _)) = open(alloc, text.as_bytes()) else {
        return Err(Fail::new("not opened"));
    };
    let _ = ask(alloc, &mut db, Call::Desk(DeskCall::Pin { seat: 0 }));
    Ok(db)
}

/// A view of the version that seat 0 holds.
fn seen(alloc: Global, text: &str) -> Result<Opened, Fail> {
    let db = pinned(alloc, text)?;
    match open_view(alloc, &db, 0) {
        Ok(view) => Ok(view),
        Err(_) => Err(Fail::new("no view")),
    }
}

/// Whether writing the text of a number answers this, and the sink then has these bytes.
fn writes(alloc: Global, opened: &Opened, number: u32, status: Status, bytes: &[u8]) -> bool {
    let mut out = MemSink::new(alloc, None);
    write_to(opened, number, &mut out) == status && out.written() == bytes
}

#[test]
fn each_number_has_its_text(rt: HostRuntime) -> Result<(), Fail> {
    let alloc = rt.alloc();
    let view = seen(alloc, PAIR)?;
    assert!(rt;
        writes(
            alloc,
            &view,
            1,
            Status::Done,
            b"inst / w T\nnet / n / n\ninst /i w L\npin /i a 0 / n\nend\n"
        )
    );
    let heads: [(u32, &[u8]); 4] = [
        (0, b"(edif f\n"),
        (1, b"inst / w T\n"),
        (2, b"path,port,bit,net_path,net\n"),
        (4, b"uses\n"),
    ];
    for (number, head) in heads.iter() {
        let mut out = MemSink::new(alloc, None);
        assert_eq!(rt; write_to(&view, *number, &mut out), Status::Done);
        assert!(rt; out.written().starts_with(*head));
    }
    let mut found = MemSink::new(alloc, None);
    assert_eq!(rt; write_to(&view, 3, &mut found), Status::Done);
    assert!(rt; found.written().ends_with(b"end\n"));
    assert!(rt; writes(alloc, &view, 5, Status::WrongUse, b""));
    Ok(())
}

#[test]
fn a_database_has_a_history_and_no_text(rt: HostRuntime) -> Result<(), Fail> {
    let alloc = rt.alloc();
    let db = pinned(alloc, PAIR)?;
    assert!(rt; writes(alloc, &db, 0, Status::WrongUse, b""));
    let mut out = MemSink::new(alloc, None);
    assert_eq!(rt; report_to(alloc, &db, &mut out), Status::Done);
    assert!(rt;
        out.written()
            .starts_with(b"history\n0 caller 0 pin -> pin 0 version 0\n")
    );
    let view = seen(alloc, PAIR)?;
    let mut none = MemSink::new(alloc, None);
    assert_eq!(rt; report_to(alloc, &view, &mut none), Status::WrongUse);
    assert!(rt; none.written().is_empty());
    Ok(())
}

#[test]
fn a_sink_that_fails_has_a_front(rt: HostRuntime) -> Result<(), Fail> {
    let alloc = rt.alloc();
    let view = seen(alloc, PAIR)?;
    let mut short = MemSink::new(alloc, Some(4));
    assert_eq!(rt; write_to(&view, 1, &mut short), Status::WriteFault);
    assert_eq!(rt; short.written(), b"inst".as_slice());
    let db = pinned(alloc, PAIR)?;
    let mut other = MemSink::new(alloc, Some(7));
    assert_eq!(rt; report_to(alloc, &db, &mut other), Status::WriteFault);
    assert_eq!(rt; other.written(), b"history".as_slice());
    Ok(())
}

#[test]
fn a_text_that_wants_a_top_is_not_begun(rt: HostRuntime) -> Result<(), Fail> {
    let alloc = rt.alloc();
    let view = seen(alloc, NO_TOP)?;
    for number in 1..4u32 {
        assert!(rt; writes(alloc, &view, number, Status::NoTop, b""));
    }
    Ok(())
}
