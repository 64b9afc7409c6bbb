//! Keywords, and how forms fit the table.
use crate::checks::same;
use crate::trees::tree_of;
use edif_grammar::{EdifFormError, Form, Keyword, form, keyword};
use edif_tree::Tree;
use netlist_schema::Ident;
use std::alloc::{AllocError, Global};
use std::process::Abort;
use std::test::Fail;

/// A form that fits, the form that holds it, its keyword, and how many fixed arguments and followers it has.
static FITTING: [(&str, Option<Keyword>, &str); 10] = [
    (
        "(EDIF e (EdifVersion 2 0 0) (ediflevel 0) (KEYWORDMAP (keywordlevel 0)) (comment \"c\") (userData x (anything 1)))",
        None,
        "Edif 4 2",
    ),
    (
        "(port (rename a_0_ \"a[0]\") (direction INPUT))",
        Some(Keyword::Interface),
        "Port 1 1",
    ),
    (
        "(property K (string \"x\"))",
        Some(Keyword::View),
        "Property 2 0",
    ),
    (
        "(cell &1 (cellType GENERIC) (view v (viewType NETLIST) (interface)) (view v))",
        Some(Keyword::External),
        "Cell 2 2",
    ),
    (
        "(instance j (viewRef V (cellRef B)))",
        Some(Keyword::Contents),
        "Instance 2 0",
    ),
    (
        "(technology (numberDefinition))",
        Some(Keyword::Library),
        "Technology 0 1",
    ),
    (
        "(portRef (member d 4))",
        Some(Keyword::Joined),
        "PortRef 1 0",
    ),
    ("(edifLevel x)", Some(Keyword::Library), "EdifLevel 1 0"),
    (
        "(edifVersion 3 x 0)",
        Some(Keyword::Edif),
        "EdifVersion 3 0",
    ),
    ("(viewType SCHEMATIC)", Some(Keyword::View), "ViewType 1 0"),
];

/// A form that does not fit, the form that holds it, and why.
static FAILING: [(&str, Option<Keyword>, &str); 16] = [
    (
        "(PortBundle p)",
        Some(Keyword::Interface),
        "PortBundle at 0",
    ),
    ("(port p)", Some(Keyword::Contents), "port at 0"),
    ("(cell c)", None, "cell at 0"),
    ("()", Some(Keyword::Interface), "BadForm at 0"),
    ("(5 x)", Some(Keyword::Interface), "BadForm at 0"),
    (
        "(port p (direction INPUT) (direction OUTPUT))",
        Some(Keyword::Interface),
        "BadForm at 26",
    ),
    ("(instance i)", Some(Keyword::Contents), "BadForm at 0"),
    ("(edifVersion 2 0)", Some(Keyword::Edif), "BadForm at 0"),
    (
        "(net n (portRef p) (joined))",
        Some(Keyword::Contents),
        "portRef at 7",
    ),
    (
        "(net n (property K (boolean (true))) (joined))",
        Some(Keyword::Contents),
        "BadForm at 7",
    ),
    ("(port p 5)", Some(Keyword::Interface), "BadForm at 8"),
    ("(port p ())", Some(Keyword::Interface), "BadForm at 8"),
    ("(port p (5 x))", Some(Keyword::Interface), "BadForm at 8"),
    ("(viewType 5)", Some(Keyword::View), "BadForm at 10"),
    (
        "(edifLevel (Level 0))",
        Some(Keyword::Library),
        "Level at 11",
    ),
    (
        "(view v (viewType NETLIST) (interface) (portInstance p))",
        Some(Keyword::Cell),
        "portInstance at 39",
    ),
];

/// A fault of a form, in words.
fn told(alloc: Global, error: &EdifFormError) -> Result<String, AllocError> {
    match error {
        EdifFormError::NotInProfile { keyword, place } => {
            let keyword = String::from_utf8_lossy(alloc, keyword.as_slice())?;
            format!(in alloc; "{keyword} at {place}")
        }
        EdifFormError::BadForm { place } => format!(in alloc; "BadForm at {place}"),
        EdifFormError::NoMemory => format!(in alloc; "no memory"),
    }
}

fn counted(alloc: Global, parts: &Form) -> Result<String, AllocError> {
    let counts = (parts.fixed.len(), parts.inner.len());
    format!(in alloc; "{:?} {} {}", parts.keyword, counts.0, counts.1)
}

fn told_or_counted(
    alloc: Global,
    answer: &Result<Form, EdifFormError>,
) -> Result<String, AllocError> {
    match answer {
        Ok(parts) => counted(alloc, parts),
        Err(error) => told(alloc, error),
    }
}

/// What is answered of the form of a tree.
fn answer_of(alloc: Global, tree: &Tree, parent: Option<Keyword>) -> Result<String, Fail> {
    let answer = form(alloc, tree.root(), parent);
    Ok(told_or_counted(alloc, &answer)?)
}

/// What is answered of the form of a text.
fn answer(alloc: Global, text: &str, parent: Option<Keyword>) -> Result<String, Fail> {
    let tree = tree_of(alloc, text)?;
    answer_of(alloc, &tree, parent)
}

/// Checks what is answered of a form.
fn check(rt: &impl Abort, alloc: Global, row: &(&str, Option<Keyword>, &str)) -> Result<(), Fail> {
    let answer = answer(alloc, row.0, row.1)?;
    same(rt, &answer.as_str(), &row.2, row.0);
    Ok(())
}

/// A name, and what it spells.
static KEYWORDS: [(&str, Option<Keyword>); 3] = [
    ("eDiFVERSION", Some(Keyword::EdifVersion)),
    ("userdata", Some(Keyword::UserData)),
    ("portBundle", None),
];

fn keyword_of(alloc: Global, name: &[u8]) -> Result<Option<Keyword>, Fail> {
    let name = Ident::of(alloc, name)?.ok_or("no identifier")?;
    Ok(keyword(&name))
}

#[test]
fn forms_fit_or_fail(rt: HostRuntime) -> Result<(), Fail> {
    for row in &FITTING {
        check(&rt, rt.alloc(), row)?;
    }
    for row in &FAILING {
        check(&rt, rt.alloc(), row)?;
    }
    Ok(())
}

#[test]
fn keywords_are_told_in_any_case(rt: HostRuntime) -> Result<(), Fail> {
    for (name, want) in &KEYWORDS {
        let keyword = keyword_of(rt.alloc(), name.as_bytes())?;
        same(&rt, &keyword, want, name);
    }
    Ok(())
}
