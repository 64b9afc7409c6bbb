//! `DesignReader`: the bytes of a design file, in pieces, to its design.
ghost use Rattle.std.specs.Prelude.{◌≡◌, ◌≢◌, ◌≤◌, ◌++◌, [], ℕ, List, IfErr, IfOk, None, OnOk, length};
ghost use Rattle.edif_spelling_spec.specs.Lexing.{lex_fault, tokens};
ghost use Rattle.edif_spelling_spec.specs.Tree.{Placed};
ghost use Rattle.edif_spelling_spec.specs.TreeFaults.{IsFile};
ghost use Rattle.edif_tree.specs.Nodes.{IsAt};
ghost use Rattle.netlist_schema.specs.declared.limits.TheConstants.{MOST_FILE_BYTES};
ghost use Rattle.edif_spec.specs.Files.{IsDesignFile, IsWrong};
ghost use Rattle.edif_file.specs.Reader.{WasFed};
ghost use Rattle.edif_file.specs.Steps.{Says};

use crate::no_design::NoDesign;
use edif_build::read_design;
use edif_lexer::{LexError, Lexer};
use edif_tree::{Tree, TreeMaker};
use netdb_outside::Taker;
use netlist_schema::{Design, NoMemory};
use std::alloc::Global;
use std::marker::Model;

/// Reads a design file whose bytes come in pieces. It keeps neither the bytes nor their tokens, but the tree that they make.
#[derive(Drop)]
pub struct DesignReader {
    alloc: Global,
    lexer: Lexer,
    maker: TreeMaker,
}

impl Model for DesignReader {
    ghost use Rattle.std.specs.Prelude.{◌≢◌};
    ghost use Rattle.edif_lexer.specs.declared.lexing.State.TheVariants.{Finished};
    ghost use Rattle.edif_file.specs.Reader.{Reader};

    ghost Value = { Reader };

    ghost view = { λ r. record { lexer = r.lexer; maker = r.maker } };

    ghost invariant = { λ r. r.lexer.state ≢ Finished };
}

impl DesignReader {
    /// A reader that was fed no bytes. Takes no memory.
    pub fn new(alloc: Global) -> DesignReader
        ensures { WasFed result [] }
    {
        DesignReader {
            alloc,
            lexer: Lexer::new(alloc),
            maker: TreeMaker::new(alloc),
        }
    }

    /// Reads the next piece. After a fault it goes on: one of bytes goes before one of tokens, wherever it stands.
    pub fn feed(&mut self, piece: &[u8]) -> Result<(), NoMemory>
        ensures { OnOk result ((fed : List ℕ) → WasFed self.old fed → WasFed self.new (fed ++ piece.now)) }
    {
        match self.lexer.feed_to(piece, &mut self.maker) {
            Ok(()) => Ok(()),
            // The lexer keeps the fault, and tells it at the end.
            Err(LexError::At { .. }) => Ok(()),
            Err(LexError::NoMemory) => Err(NoMemory),
        }
    }

    /// The tree of the file, where no more bytes come, or the first thing that is wrong with its bytes or its tokens.
    fn tree(self) -> Result<Tree, NoDesign>
        ensures none { IfOk result (λ tree. (fed : List ℕ) → WasFed self fed → lex_fault fed ≡ None) }
        ensures tree { IfOk result (λ tree. (fed : List ℕ) → WasFed self fed → (t : Placed) × IsAt tree.rows tree.root t × IsFile (tokens fed) t) }
        ensures fault { IfErr result (λ e. (fed : List ℕ) → WasFed self fed → Says (IsWrong fed) e) }
    {
        let mut lexer = self.lexer;
        let mut maker = self.maker;
        let end = lexer.finish_to(&mut maker)?;
        Ok(maker.finish(end)?)
    }

    /// The design of the file, where no more bytes come, or what is wrong with it.
    pub fn finish(self) -> Result<Design, NoDesign>
        ensures design { IfOk result (λ d. (fed : List ℕ) → WasFed self fed → length fed ≤ MOST_FILE_BYTES → IsDesignFile fed d) }
        ensures fault { IfErr result (λ e. (fed : List ℕ) → WasFed self fed → Says (IsWrong fed) e) }
    {
        let alloc = self.alloc;
        let tree = self.tree()?;
        Ok(read_design(alloc, &tree)?)
    }
}

impl Taker for DesignReader {
    ghost took = { WasFed };

    fn take_piece(&mut self, piece: &[u8]) -> Result<(), NoMemory> {
        self.feed(piece)
    }
}
