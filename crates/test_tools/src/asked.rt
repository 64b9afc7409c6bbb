//! Calls on what was opened, in order, each with its status, its number and its text.
use crate::designs::PAIR;
use netdb_calls::{
    Call, DeskCall, Opened, QuestionCall, Status, Told, ViewCall, ask, open, open_questions,
    open_view,
};
use std::alloc::Global;
use std::process::Abort;
use std::test::Fail;

/// What the text of a design opens.
fn opened(alloc: Global, text: &str) -> Result<(Opened, Status), Fail> {
    match open(alloc, text.as_bytes()) {
        Ok(made) => Ok(made),
        Err(_) => Err(Fail::new("not opened")),
    }
}

/// A status with a number.
fn told(status: Status, number: u64) -> Told {
    Told { status, number }
}

/// Opens the design, and puts a seat in a transaction.
fn in_transaction(alloc: Global, seats: &[u32]) -> Result<Opened, Fail> {
    let (mut db, _) = opened(alloc, PAIR)?;
    for seat in seats {
        let _ = ask(alloc, &mut db, Call::Desk(DeskCall::Pin { seat: *seat }));
        let _ = ask(alloc, &mut db, Call::Desk(DeskCall::Begin { seat: *seat }));
    }
    Ok(db)
}

#[test]
fn bytes_that_are_no_design_have_a_text(rt: HostRuntime) -> Result<(), Fail> {
    let alloc = rt.alloc();
    let (mut none, status) = opened(alloc, "(edif f")?;
    assert_eq!(rt; status, Status::BadDesign);
    assert!(rt; !none.text.is_empty());
    let answer = ask(alloc, &mut none, Call::Desk(DeskCall::Pin { seat: 0 }));
    assert_eq!(rt; answer, told(Status::WrongUse, 0));
    Ok(())
}

#[test]
fn the_later_of_two_commits_has_a_text(rt: HostRuntime) -> Result<(), Fail> {
    let alloc = rt.alloc();
    let mut db = in_transaction(alloc, &[0, 1])?;
    for seat in 0..2 {
        let line = b"set-prop w T net n K true";
        let answer = ask(alloc, &mut db, Call::Desk(DeskCall::Line { seat, line }));
        assert_eq!(rt; answer, told(Status::Done, 0));
        assert_eq!(rt; db.text.as_slice(), b"done\n".as_slice());
    }
    let first = ask(alloc, &mut db, Call::Desk(DeskCall::Commit { seat: 1 }));
    assert_eq!(rt; first, told(Status::Done, 1));
    let second = ask(alloc, &mut db, Call::Desk(DeskCall::Commit { seat: 0 }));
    assert_eq!(rt; second, told(Status::Conflict, 1));
    assert_eq!(rt;
        db.text.as_slice(),
        b"conflict contents w T version 1\n".as_slice()
    );
    Ok(())
}

#[test]
fn a_view_is_of_the_version_that_a_seat_holds(rt: HostRuntime) -> Result<(), Fail> {
    let alloc = rt.alloc();
    let mut db = in_transaction(alloc, &[0])?;
    assert!(rt; matches!(open_view(alloc, &db, 1), Err(Status::WrongUse)));
    let Ok(mut view) = open_view(alloc, &db, 0) else {
        return Err(Fail::new("no view"));
    };
    let end = ask(alloc, &mut db, Call::Desk(DeskCall::Abandon { seat: 0 }));
    assert_eq!(rt; end, told(Status::Done, 0));
    let walk = ask(alloc, &mut view, Call::View(ViewCall::Walk));
    assert_eq!(rt; walk, told(Status::Done, 0));
    let next = ask(alloc, &mut view, Call::View(ViewCall::Next));
    assert_eq!(rt; next, told(Status::Done, 0));
    assert_eq!(rt; view.text.as_slice(), b"inst / w T\n".as_slice());
    let cell = ask(alloc, &mut view, Call::View(ViewCall::Field { number: 3 }));
    assert_eq!(rt; cell, told(Status::Done, 0));
    assert_eq!(rt; view.text.as_slice(), b"T".as_slice());
    let none = ask(alloc, &mut view, Call::View(ViewCall::Field { number: 4 }));
    assert_eq!(rt; none, told(Status::NoField, 0));
    let wrong = ask(alloc, &mut view, Call::Desk(DeskCall::Pin { seat: 0 }));
    assert_eq!(rt; wrong, told(Status::WrongUse, 0));
    Ok(())
}

/// A question has this status, and then the text is this one.
fn check_asked(
    rt: &impl Abort,
    alloc: Global,
    opened: &mut Opened,
    call: QuestionCall<'_>,
    want: (Status, &str),
) -> Result<(), Fail> {
    let answer = ask(alloc, opened, Call::Question(call));
    assert_eq!(rt; answer, told(want.0, 0));
    assert_eq!(rt; opened.text.as_slice(), want.1.as_bytes());
    Ok(())
}

#[test]
fn questions_are_of_the_version_that_a_seat_holds(rt: HostRuntime) -> Result<(), Fail> {
    let alloc = rt.alloc();
    let mut db = in_transaction(alloc, &[0])?;
    assert!(rt; matches!(open_questions(alloc, &db, 1), Err(Status::WrongUse)));
    let Ok(mut asked) = open_questions(alloc, &db, 0) else {
        return Err(Fail::new("no questions"));
    };
    let at = QuestionCall::At { path: b"i" };
    check_asked(&rt, alloc, &mut asked, at, (Status::Done, "inst /i w L\n"))?;
    let lost = QuestionCall::At { path: b"j" };
    check_asked(
        &rt,
        alloc,
        &mut asked,
        lost,
        (Status::NoPath, "inst /i w L\n"),
    )?;
    let next = QuestionCall::Next;
    check_asked(
        &rt,
        alloc,
        &mut asked,
        next,
        (Status::WrongUse, "inst /i w L\n"),
    )?;
    let loads = QuestionCall::Pins {
        path: b"/",
        net: b"n",
        role: 2,
    };
    check_asked(
        &rt,
        alloc,
        &mut asked,
        loads,
        (Status::Done, "inst /i w L\n"),
    )?;
    check_asked(
        &rt,
        alloc,
        &mut asked,
        next,
        (Status::Done, "pin /i a 0 / n\n"),
    )?;
    check_asked(
        &rt,
        alloc,
        &mut asked,
        next,
        (Status::End, "pin /i a 0 / n\n"),
    )?;
    let wrong = ask(alloc, &mut db, Call::Question(at));
    assert_eq!(rt; wrong, told(Status::WrongUse, 0));
    let walk = ask(alloc, &mut asked, Call::View(ViewCall::Walk));
    assert_eq!(rt; walk, told(Status::WrongUse, 0));
    Ok(())
}

#[test]
fn nets_are_one_or_apart(rt: HostRuntime) -> Result<(), Fail> {
    let alloc = rt.alloc();
    let db = in_transaction(alloc, &[0])?;
    let Ok(mut asked) = open_questions(alloc, &db, 0) else {
        return Err(Fail::new("no questions"));
    };
    let one = QuestionCall::Same {
        path: b"/",
        net: b"n",
        other_path: b"/",
        other_net: b"n",
    };
    check_asked(&rt, alloc, &mut asked, one, (Status::Done, ""))?;
    let none = QuestionCall::Same {
        path: b"/",
        net: b"n",
        other_path: b"/",
        other_net: b"m",
    };
    check_asked(&rt, alloc, &mut asked, none, (Status::NoName, ""))
}
