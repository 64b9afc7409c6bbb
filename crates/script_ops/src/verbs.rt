//! The first words of lines.
ghost use Rattle.std.specs.Prelude.{◌≡◌, ◌≢◌, MatchOption};
ghost use Rattle.script_ops.specs.Verbs.{all_verbs, bare_word, inside_word, op_word, verb_word};

/// The lines of one word.
#[derive(Clone, Copy)]
pub enum Bare {
    Commit,
    Abandon,
    Pin,
    Release,
    Collect,
}

/// The operations whose line has a cell and one name more.
#[derive(Clone, Copy)]
pub enum Inside {
    ShowNet,
    ShowInst,
    AddNet,
    DropNet,
    DropInst,
    Ungroup,
}

/// The operations.
#[derive(Clone, Copy)]
pub enum OpVerb {
    ShowCell,
    InCell(Inside),
    AddCell,
    AddInst,
    Join,
    Cut,
    SetProp,
    SetNote,
    DropNote,
    Uniquify,
    UniquePath,
}

/// What the first word of a line says.
#[derive(Clone, Copy)]
pub enum Verb {
    Begin,
    PinAt,
    Walk,
    Alone(Bare),
    Operation(OpVerb),
}

/// The word of a line of one word.
fn bare_word(verb: Bare) -> &'static [u8]
    ensures { result.now ≡ bare_word verb }
{
    match verb {
        Bare::Commit => b"commit",
        Bare::Abandon => b"abandon",
        Bare::Pin => b"pin",
        Bare::Release => b"release",
        Bare::Collect => b"collect",
    }
}

/// The word of an operation on a name in a cell.
fn inside_word(verb: Inside) -> &'static [u8]
    ensures { result.now ≡ inside_word verb }
{
    match verb {
        Inside::ShowNet => b"show-net",
        Inside::ShowInst => b"show-inst",
        Inside::AddNet => b"add-net",
        Inside::DropNet => b"drop-net",
        Inside::DropInst => b"drop-inst",
        Inside::Ungroup => b"ungroup",
    }
}

/// The word of an operation.
fn op_word(verb: OpVerb) -> &'static [u8]
    ensures { result.now ≡ op_word verb }
{
    match verb {
        OpVerb::ShowCell => b"show-cell",
        OpVerb::InCell(inside) => inside_word(inside),
        OpVerb::AddCell => b"add-cell",
        OpVerb::AddInst => b"add-inst",
        OpVerb::Join => b"join",
        OpVerb::Cut => b"cut",
        OpVerb::SetProp => b"set-prop",
        OpVerb::SetNote => b"set-note",
        OpVerb::DropNote => b"drop-note",
        OpVerb::Uniquify => b"uniquify",
        OpVerb::UniquePath => b"unique-path",
    }
}

/// The first word of a line.
fn verb_word(verb: Verb) -> &'static [u8]
    ensures { result.now ≡ verb_word verb }
{
    match verb {
        Verb::Begin => b"begin",
        Verb::PinAt => b"pin-at",
        Verb::Walk => b"walk",
        Verb::Alone(bare) => bare_word(bare),
        Verb::Operation(op) => op_word(op),
    }
}

/// The verbs, in the order of the table of lines.
fn all_verbs() -> &'static [Verb]
    ensures { result.now ≡ all_verbs }
{
    use Verb::*;
    &[
        Begin,
        Operation(OpVerb::ShowCell),
        Operation(OpVerb::InCell(Inside::ShowNet)),
        Operation(OpVerb::InCell(Inside::ShowInst)),
        Operation(OpVerb::AddCell),
        Operation(OpVerb::InCell(Inside::AddNet)),
        Operation(OpVerb::InCell(Inside::DropNet)),
        Operation(OpVerb::AddInst),
        Operation(OpVerb::InCell(Inside::DropInst)),
        Operation(OpVerb::Join),
        Operation(OpVerb::Cut),
        Operation(OpVerb::SetProp),
        Operation(OpVerb::SetNote),
        Operation(OpVerb::DropNote),
        Operation(OpVerb::Uniquify),
        Operation(OpVerb::UniquePath),
        Operation(OpVerb::InCell(Inside::Ungroup)),
        Alone(Bare::Commit),
        Alone(Bare::Abandon),
        Alone(Bare::Pin),
        PinAt,
        Walk,
        Alone(Bare::Release),
        Alone(Bare::Collect),
    ]
}

/// The verb that this word is, if it is one.
pub fn find_verb(word: &[u8]) -> Option<Verb>
    ensures { MatchOption result ((v : _) → word.now ≢ verb_word v) (λ v. word.now ≡ verb_word v) }
{
    let verbs = all_verbs();
    for verb in verbs {
        if word == verb_word(*verb) {
            return Some(*verb);
        }
    }
    None
}
