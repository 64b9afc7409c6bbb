//! Questions by name about a version.
use crate::designs::{NO_TOP, PAIR};
use flat_report::item_text;
use flat_spec::Item;
use netdb_desk::Desk;
use netdb_questions::{AskError, NetName, NextError, Questions, Refusal, Role};
use std::alloc::Global;
use std::process::Abort;
use std::test::Fail;
use test_text_designs::design_of;

/// Questions about the first version of a design.
fn asked(alloc: Global, text: &str) -> Result<Questions, Fail> {
    let desk = Desk::open(alloc, design_of(alloc, text.as_bytes())?)?;
    Ok(Questions::of(alloc, desk.head().share()?)?)
}

/// The answer is the item of this line.
fn check_line(
    rt: &impl Abort,
    alloc: Global,
    questions: &Questions,
    item: &Item,
    want: &str,
) -> Result<(), Fail> {
    let mut line = Vec::new(alloc);
    item_text(alloc, questions.design(), item, &mut line)?;
    assert_eq!(rt; line.as_slice(), want.as_bytes());
    Ok(())
}

/// What is left of the list are the items of these lines.
fn check_list(
    rt: &impl Abort,
    alloc: Global,
    questions: &mut Questions,
    want: &[&str],
) -> Result<(), Fail> {
    for line in want {
        match &questions.next()? {
            Some(item) => check_line(rt, alloc, questions, item, line)?,
            None => assert!(rt; false),
        }
    }
    assert!(rt; questions.next()?.is_none());
    assert!(rt; questions.next()?.is_none());
    Ok(())
}

#[test]
fn an_answer_is_an_item_of_the_flattening(rt: HostRuntime) -> Result<(), Fail> {
    let alloc = rt.alloc();
    let questions = asked(alloc, PAIR)?;
    let rows = [
        (questions.at(b"/")?, "inst / w T\n"),
        (questions.at(b"i")?, "inst /i w L\n"),
        (questions.at(b"/i")?, "inst /i w L\n"),
        (questions.net_of(b"i", b"a", 0)?, "net / n / n\n"),
        (questions.first_of(b"/", b"n")?, "net / n / n\n"),
    ];
    for (item, line) in rows.iter() {
        check_line(&rt, alloc, &questions, item, line)?;
    }
    let net = NetName {
        path: b"/",
        net: b"n",
    };
    assert!(rt; questions.is_same_net(net, net)?);
    Ok(())
}

#[test]
fn each_refusal_has_its_cause(rt: HostRuntime) -> Result<(), Fail> {
    let mut questions = asked(rt.alloc(), PAIR)?;
    assert_eq!(rt; questions.at(b"j"), Err(Refusal::NoPath));
    assert_eq!(rt; questions.net_of(b"", b"a", 0), Err(Refusal::NoPath));
    assert_eq!(rt; questions.net_of(b"i", b"b", 0), Err(Refusal::NoName));
    assert_eq!(rt; questions.net_of(b"i", b"a", 1), Err(Refusal::NoName));
    assert_eq!(rt; questions.inner_net_of(b"i", b"a", 0), Err(Refusal::NoNet));
    assert_eq!(rt; questions.first_of(b"/", b"N"), Err(Refusal::NoName));
    assert_eq!(rt; questions.next(), Err(NextError::NoList));
    assert_eq!(rt; questions.pins(Role::Any, b"i", b"n"), Err(Refusal::NoName));
    assert_eq!(rt; questions.insts(b"i/"), Err(Refusal::NoPath));
    assert_eq!(rt; questions.nets(b"n"), Err(Refusal::NoPath));
    assert_eq!(rt; questions.next(), Err(NextError::NoList));
    Ok(())
}

#[test]
fn lists_give_one_item_after_another(rt: HostRuntime) -> Result<(), Fail> {
    let alloc = rt.alloc();
    let mut questions = asked(alloc, PAIR)?;
    questions.pins(Role::Any, b"/", b"n")?;
    check_list(&rt, alloc, &mut questions, &["pin /i a 0 / n\n"])?;
    questions.pins(Role::Driver, b"/", b"n")?;
    check_list(&rt, alloc, &mut questions, &["pin /i a 0 / n\n"])?;
    questions.insts(b"/")?;
    check_list(&rt, alloc, &mut questions, &["inst /i w L\n"])?;
    questions.nets(b"/")?;
    check_list(&rt, alloc, &mut questions, &["net / n / n\n"])?;
    questions.insts(b"i")?;
    check_list(&rt, alloc, &mut questions, &[])
}

#[test]
fn a_design_with_no_top_is_not_asked(rt: HostRuntime) -> Result<(), Fail> {
    let alloc = rt.alloc();
    let desk = Desk::open(alloc, design_of(alloc, NO_TOP.as_bytes())?)?;
    let none = Questions::of(alloc, desk.head().share()?);
    assert!(rt; matches!(none, Err(AskError::NoTop)));
    Ok(())
}
