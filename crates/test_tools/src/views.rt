//! A walk over a version, the fields of its items, and its texts.
use crate::designs::{NO_TOP, PAIR};
use netdb_desk::Desk;
use netdb_outside::MemSink;
use netdb_view::{BeginError, Field, FlatError, LineStep, Step, View};
use occ_walk::WalkError;
use std::alloc::Global;
use std::test::Fail;
use test_text_designs::design_of;

/// A view of the first version of a design.
fn view_of(alloc: Global, text: &str) -> Result<View, Fail> {
    let desk = Desk::open(alloc, design_of(alloc, text.as_bytes())?)?;
    Ok(View::of(alloc, desk.head().share()?))
}

/// The line of the item that is shown.
fn line_of(alloc: Global, view: &View) -> Result<Vec<u8>, Fail> {
    let mut line = Vec::new(alloc);
    view.line(&mut line)?;
    Ok(line)
}

/// A field of the item that is shown; `none` where it has none.
fn field_of(alloc: Global, view: &View, which: Field) -> Result<Vec<u8>, Fail> {
    let mut text = Vec::new(alloc);
    if !view.field(which, &mut text)? {
        text.extend_from_slice(b"none")?;
    }
    Ok(text)
}

#[test]
fn a_walk_shows_each_item(rt: HostRuntime) -> Result<(), Fail> {
    let mut view = view_of(rt.alloc(), PAIR)?;
    assert_eq!(rt; view.next(), Step::NoWalk);
    assert_eq!(rt; view.begin(), Ok(()));
    assert!(rt; line_of(rt.alloc(), &view)?.is_empty());
    let lines: [&[u8]; 4] = [
        b"inst / w T\n",
        b"net / n / n\n",
        b"inst /i w L\n",
        b"pin /i a 0 / n\n",
    ];
    for line in lines.iter() {
        assert_eq!(rt; view.next(), Step::Shown);
        assert_eq!(rt; line_of(rt.alloc(), &view)?.as_slice(), *line);
    }
    assert_eq!(rt; view.next(), Step::End);
    assert_eq!(rt; view.next(), Step::End);
    Ok(())
}

#[test]
fn a_step_with_its_line_makes_the_text_that_line(rt: HostRuntime) -> Result<(), Fail> {
    let mut view = view_of(rt.alloc(), PAIR)?;
    let mut text = Vec::new(rt.alloc());
    text.extend_from_slice(b"before")?;
    assert_eq!(rt; view.next_line(&mut text), LineStep::NoWalk);
    assert_eq!(rt; text.as_slice(), b"before".as_slice());
    assert_eq!(rt; view.begin_at(&[0]), Ok(()));
    let lines: [&[u8]; 2] = [b"inst /i w L\n", b"pin /i a 0 / n\n"];
    for line in lines.iter() {
        assert_eq!(rt; view.next_line(&mut text), LineStep::Shown);
        assert_eq!(rt; text.as_slice(), *line);
        assert_eq!(rt; line_of(rt.alloc(), &view)?.as_slice(), *line);
    }
    assert_eq!(rt; view.next_line(&mut text), LineStep::End);
    assert_eq!(rt; text.as_slice(), b"pin /i a 0 / n\n".as_slice());
    assert!(rt; view.shown().is_none());
    Ok(())
}

#[test]
fn a_walk_at_a_path_shows_what_is_below(rt: HostRuntime) -> Result<(), Fail> {
    let mut view = view_of(rt.alloc(), PAIR)?;
    assert_eq!(rt; view.begin_at(&[1]), Err(BeginError::NoPath));
    assert_eq!(rt; view.begin_at(&[0]), Ok(()));
    assert_eq!(rt; view.next(), Step::Shown);
    assert_eq!(rt;
        line_of(rt.alloc(), &view)?.as_slice(),
        b"inst /i w L\n".as_slice()
    );
    Ok(())
}

#[test]
fn a_design_with_no_top_has_no_walk(rt: HostRuntime) -> Result<(), Fail> {
    let mut view = view_of(rt.alloc(), NO_TOP)?;
    assert_eq!(rt; view.begin(), Err(WalkError::NoTop));
    assert_eq!(rt; view.begin_at(&[]), Err(BeginError::NoTop));
    let mut out = MemSink::new(rt.alloc(), None);
    assert_eq!(rt; view.flat(None, &mut out), Err(FlatError::NoTop));
    assert!(rt; out.written().is_empty());
    Ok(())
}

/// The fields of the item that is shown, in their order.
fn fields_of(alloc: Global, view: &View) -> Result<Vec<u8>, Fail> {
    let all = [
        Field::Kind,
        Field::Path,
        Field::Library,
        Field::Cell,
        Field::Net,
        Field::Port,
        Field::Bit,
        Field::Direction,
        Field::FirstPath,
        Field::FirstNet,
    ];
    let mut text = Vec::new(alloc);
    for which in all.iter() {
        text.extend_from_slice(field_of(alloc, view, *which)?.as_slice())?;
        text.push(b' ')?;
    }
    Ok(text)
}

#[test]
fn an_item_has_the_fields_of_its_kind(rt: HostRuntime) -> Result<(), Fail> {
    let mut view = view_of(rt.alloc(), PAIR)?;
    assert_eq!(rt; view.begin(), Ok(()));
    let rows: [&[u8]; 4] = [
        b"inst / w T none none none none none none ",
        b"net / none none n none none none / n ",
        b"inst /i w L none none none none none none ",
        b"pin /i none none none a 0 inout / n ",
    ];
    for row in rows.iter() {
        assert_eq!(rt; view.next(), Step::Shown);
        assert_eq!(rt; fields_of(rt.alloc(), &view)?.as_slice(), *row);
    }
    Ok(())
}

#[test]
fn texts_go_to_a_sink(rt: HostRuntime) -> Result<(), Fail> {
    let view = view_of(rt.alloc(), PAIR)?;
    let mut flat = MemSink::new(rt.alloc(), None);
    assert_eq!(rt; view.flat(Some(2), &mut flat), Ok(()));
    assert_eq!(rt;
        flat.written(),
        b"inst / w T\nnet / n / n\nmore\n".as_slice()
    );
    let mut short = MemSink::new(rt.alloc(), Some(3));
    assert_eq!(rt; view.flat(None, &mut short), Err(FlatError::WriteFault));
    let mut edif = MemSink::new(rt.alloc(), None);
    assert_eq!(rt; view.write(&mut edif), Ok(()));
    assert!(rt; edif.written().starts_with(b"(edif f\n"));
    Ok(())
}
