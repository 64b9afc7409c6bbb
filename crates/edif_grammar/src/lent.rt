//! A form by its parts, where it fits its row.
ghost use Rattle.std.specs.Prelude.{◌≡◌, IfErr, IfOk, true, false};
ghost use Rattle.edif_spelling_spec.specs.Tree.{bare};
ghost use Rattle.edif_spec.specs.Faults.{arguments, misplaced, row_has, RowFault};
ghost use Rattle.edif_spec.specs.Rows.{has_keyword};
ghost use Rattle.edif_spec.specs.declared.fault.Kind.TheVariants as Kind;
ghost use Rattle.edif_tree.specs.Handles.{here, all};
ghost use Rattle.edif_grammar.specs.Forms.{ArePartsOf, Fails, HasParts, fault_of, has_form, row_above};

use crate::checks::{check_fixed, check_inner, check_seconds};
use crate::nodes::opened;
use crate::rules::{Argument, Rule, rule_above, rule_of};
use edif_keywords::keyword;
use edif_spec::Keyword;
use edif_tree::{Node, Nodes};
use netlist_schema::Ident;

/// A form by its parts, as its tree lends them.
#[derive(Clone, Copy)]
pub struct Form<'a> {
    /// Its keyword.
    pub keyword: Keyword,
    /// The number of bytes before its `(`.
    pub place: u64,
    /// Its fixed arguments, in order.
    pub fixed: Nodes<'a>,
    /// What follows them, in order.
    pub inner: Nodes<'a>,
}

/// Why a form does not fit.
#[derive(Clone, Copy)]
pub enum Breach<'a> {
    /// A form whose keyword the form that holds it does not have.
    NotInProfile {
        /// The keyword as spelled.
        keyword: &'a Ident,
        /// The number of bytes before its `(`.
        place: u64,
    },
    /// Any other breach of a row, but those that have a kind of their own.
    BadForm {
        /// The number of bytes before what is wrong.
        place: u64,
    },
}

/// The parts of the form at a node, where it fits the row of its keyword and the row of the form that holds it; with no parent, the
/// form is to be a whole file. Another version or level, and a second view or design, are faults of their own, and no breach here.
/// Takes no memory.
pub fn parts_of(node: Node<'_>, parent: Option<Keyword>) -> Result<Form<'_>, Breach<'_>>
    ensures ok { IfOk result (λ p. HasParts parent (here node.entry) p) }
    ensures err { IfErr result (λ b. Fails parent (here node.entry) (fault_of b)) }
{
    let (keyword, arguments) = entered(node, parent)?;
    check_row(node, keyword, arguments)
}

/// The parts of the form with this keyword at a node, where it fits the row of its keyword, which is not looked up again. The same are
/// no breach here. Takes no memory.
#[inline(always)]
pub fn parts_as(node: Node<'_>, keyword: Keyword) -> Result<Form<'_>, Breach<'_>>
    requires { has_keyword keyword (bare (here node)) ≡ true }
    ensures ok { IfOk result (λ p. ArePartsOf keyword (here node.entry) p) }
    ensures err { IfErr result (λ b. RowFault keyword (here node.entry) (fault_of b)) }
{
    let Some((_, arguments)) = opened(node) else {
        unreachable!();
    };
    check_row(node, keyword, arguments)
}

/// The keyword of the form at a node, and its arguments, where the row that holds it has it.
fn entered(node: Node<'_>, parent: Option<Keyword>) -> Result<(Keyword, Nodes<'_>), Breach<'_>>
    ensures ok { IfOk result (λ p. (has_keyword p.0 (bare (here node.entry)) ≡ true) × (row_has (row_above parent) (bare (here node.entry)) ≡ true) × (all p.1 ≡ arguments (here node.entry))) }
    ensures err { IfErr result (λ b. (has_form (row_above parent) (bare (here node.entry)) ≡ false) × (fault_of b ≡ misplaced Kind.BadForm (row_above parent) (here node.entry))) }
{
    let place = node.place();
    let Some((name, arguments)) = opened(node) else {
        return Err(Breach::BadForm { place });
    };
    let Some(keyword) = keyword(name) else {
        return Err(Breach::NotInProfile {
            keyword: name,
            place,
        });
    };
    if !rule_above(parent).has(Argument::Form(keyword)) {
        return Err(Breach::NotInProfile {
            keyword: name,
            place,
        });
    }
    Ok((keyword, arguments))
}

/// The parts of the form at a node with this keyword and these arguments, where it fits its row.
#[inline(always)]
fn check_row<'a>(node: Node<'a>, keyword: Keyword, nodes: Nodes<'a>) -> Result<Form<'a>, Breach<'a>>
    requires keyword { has_keyword keyword (bare (here node)) ≡ true }
    requires nodes { all nodes ≡ arguments (here node) }
    ensures ok { IfOk result (λ p. ArePartsOf keyword (here node.entry) p) }
    ensures err { IfErr result (λ b. RowFault keyword (here node.entry) (fault_of b)) }
{
    let place = node.place();
    let rule = rule_of(keyword);
    let Rule::Takes(wanted, allowed) = rule else {
        let (fixed, inner) = nodes.split_at(0);
        return Ok(Form {
            keyword,
            place,
            fixed,
            inner,
        });
    };
    if nodes.len() < wanted.len() {
        return Err(Breach::BadForm { place });
    }
    check_fixed(keyword, rule, wanted, nodes)?;
    let (fixed, inner) = nodes.split_at(wanted.len());
    check_inner(rule, allowed, inner)?;
    check_seconds(allowed, inner)?;
    Ok(Form {
        keyword,
        place,
        fixed,
        inner,
    })
}
