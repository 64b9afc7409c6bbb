//! Designs that tests write as texts.
#![tactic(auto)]

use edif_build::read_design;
use edif_lexer::Lexer;
use edif_tree::read_tree;
use netlist_schema::Design;
use std::alloc::Global;
use std::test::Fail;

/// The design that a text means. The test fails where it means none, and for want of memory.
pub fn design_of(alloc: Global, text: &[u8]) -> Result<Design, Fail> {
    let mut lexer = Lexer::new(alloc);
    let mut tokens = Vec::new(alloc);
    lexer.feed(text, &mut tokens)?;
    let end = lexer.finish(&mut tokens)?;
    let tree = read_tree(alloc, &tokens, end)?;
    Ok(read_design(alloc, &tree)?)
}
