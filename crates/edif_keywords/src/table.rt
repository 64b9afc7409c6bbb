//! The keywords and their spellings.
ghost use Rattle.std.specs.Prelude.{◌≡◌, length};
ghost use Rattle.edif_spec.specs.Keyword.{keyword, same, spelling_of};
ghost use Rattle.edif_keywords.specs.Table.{as_long};

use edif_spec::Keyword;
use netlist_schema::Ident;

/// The keywords in the order of the table, each with its spelling.
macro_rules! rows {
    ($then:ident!) => {
        $then! {
            Edif b"edif",
            EdifVersion b"edifVersion",
            EdifLevel b"edifLevel",
            KeywordMap b"keywordMap",
            KeywordLevel b"keywordLevel",
            Library b"library",
            External b"external",
            Technology b"technology",
            Cell b"cell",
            CellType b"cellType",
            View b"view",
            ViewType b"viewType",
            Interface b"interface",
            Port b"port",
            Array b"array",
            Direction b"direction",
            Designator b"designator",
            Owner b"owner",
            Contents b"contents",
            Instance b"instance",
            Net b"net",
            Joined b"joined",
            PortRef b"portRef",
            Member b"member",
            InstanceRef b"instanceRef",
            LibraryRef b"libraryRef",
            ViewRef b"viewRef",
            CellRef b"cellRef",
            Property b"property",
            Boolean b"boolean",
            Integer b"integer",
            Number b"number",
            String b"string",
            Design b"design",
            Rename b"rename",
            Status b"status",
            Comment b"comment",
            UserData b"userData",
            True b"true",
            False b"false",
            E b"e",
            Path b"path",
        }
    };
}

/// The keyword that a name spells, ignoring the case of ASCII letters, or `None` where it spells none.
pub fn keyword(name: &Ident) -> Option<Keyword>
    ensures { result ≡ keyword name.now }
{
    let name = name.as_slice();
    let candidates = of_length(name.len());
    for keyword in candidates {
        if is_same(name, spelling_of_keyword(*keyword)) {
            return Some(*keyword);
        }
    }
    None
}

/// How a keyword is spelled.
fn spelling_of_keyword(keyword: Keyword) -> &'static [u8]
    ensures { result.now ≡ spelling_of keyword }
{
    macro_rules! spelling {
        ($($variant:ident $spelling:expr,)*) => {
            match keyword {
                $(Keyword::$variant => $spelling,)*
            }
        };
    }
    rows!(spelling!)
}

/// The keywords whose spelling is so long, in the order of the table.
fn of_length(length: usize) -> &'static [Keyword]
    ensures { result.now ≡ as_long length }
{
    use Keyword::*;
    match length {
        1 => &[E],
        3 => &[Net],
        4 => &[Edif, Cell, View, Port, True, Path],
        5 => &[Array, Owner, False],
        6 => &[Joined, Member, Number, String, Design, Rename, Status],
        7 => &[
            Library, PortRef, ViewRef, CellRef, Boolean, Integer, Comment,
        ],
        8 => &[
            External, CellType, ViewType, Contents, Instance, Property, UserData,
        ],
        9 => &[EdifLevel, Interface, Direction],
        10 => &[KeywordMap, Technology, Designator, LibraryRef],
        11 => &[EdifVersion, InstanceRef],
        12 => &[KeywordLevel],
        _ => &[],
    }
}

/// Whether two spellings are equal when the case of ASCII letters is ignored.
fn is_same(left: &[u8], right: &[u8]) -> bool
    ensures { result ≡ same left.now right.now }
{
    left.eq_ignore_ascii_case(right)
}
