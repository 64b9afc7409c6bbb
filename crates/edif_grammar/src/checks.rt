//! The arguments of a form against its row.
ghost use Rattle.std.specs.Prelude.{◌≡◌, ◌≤◌, ℕ, IfErr, IfOk, Some, length, map, slice_get, true, false};
ghost use Rattle.std.specs.List.{AllByRecursion};
ghost use Rattle.edif_spelling_spec.specs.Tree.{bare};
ghost use Rattle.edif_spec.specs.Faults.{AtTwo, FixedFault, FollowerFault, SecondFault, misplaced, place_of, those_of, token_kind};
ghost use Rattle.edif_spec.specs.Rows.{is_follower, is_one_of};
ghost use Rattle.edif_spec.specs.declared.fault.Kind.TheVariants as Kind;
ghost use Rattle.edif_spec.specs.declared.fault.MeaningFault.TheVariants as MeaningFault;
ghost use Rattle.edif_tree.specs.Handles.{here, all};
ghost use Rattle.edif_grammar.specs.Forms.{fault_of};
ghost use Rattle.edif_grammar.specs.Rules.{choices, follower, row_of};
ghost use Rattle.edif_grammar.specs.Checks.{ArgumentFits, FixedFits, OnceFits};
ghost use Rattle.edif_spec.specs.Keyword.{Follower};

use crate::lent::Breach;
use crate::nodes::{argument_at, is_form_of, opened};
use crate::rules::{FixedArgument, Inner, Rule, may_follow, second_is_bad_form, tokens_apart};
use edif_spec::Keyword;
use edif_tree::{Node, Nodes};

/// What is wrong with a form that the row has not in this place, or with a token.
fn misplaced_at(rule: Rule, node: Node<'_>) -> Breach<'_>
    ensures { fault_of result ≡ misplaced Kind.BadForm (row_of rule) (here node.entry) }
{
    let place = node.place();
    let Some((name, _)) = opened(node) else {
        return Breach::BadForm { place };
    };
    if rule.has(argument_at(node)) {
        return Breach::BadForm { place };
    }
    Breach::NotInProfile {
        keyword: name,
        place,
    }
}

/// Checks one fixed argument. A token whose fault has a kind of its own passes.
#[inline(always)]
fn check_argument(
    keyword: Keyword,
    rule: Rule,
    wanted: FixedArgument,
    node: Node<'_>,
) -> Result<(), Breach<'_>>
    ensures ok { IfOk result (λ u. ArgumentFits (token_kind keyword) (row_of rule) (choices wanted) (here node.entry)) }
    ensures err { IfErr result (λ b. (is_one_of (choices wanted) (bare (here node.entry)) ≡ false) × (fault_of b ≡ misplaced (token_kind keyword) (row_of rule) (here node.entry))) }
{
    let argument = argument_at(node);
    if wanted.fits(argument) {
        return Ok(());
    }
    if argument.is_token() {
        if tokens_apart(keyword) {
            return Ok(());
        }
    }
    Err(misplaced_at(rule, node))
}

/// Checks the fixed arguments, of which none is missing.
#[inline(always)]
pub(crate) fn check_fixed<'a>(
    keyword: Keyword,
    rule: Rule,
    wanted: &[FixedArgument],
    nodes: Nodes<'a>,
) -> Result<(), Breach<'a>>
    requires { length wanted.now ≤ length (all nodes) }
    ensures ok { IfOk result (λ u. FixedFits (token_kind keyword) (row_of rule) (map choices wanted.now) (all nodes.entry)) }
    ensures err { (place : ℕ) → IfErr result (λ b. FixedFault (misplaced (token_kind keyword) (row_of rule)) place (map choices wanted.now) (all nodes.entry) (fault_of b)) }
{
    for (i, choice) in wanted.iter().enumerate() {
        check_argument(keyword, rule, *choice, nodes.at(i))?;
    }
    Ok(())
}

/// Checks that each of these may follow the fixed arguments.
#[inline(always)]
pub(crate) fn check_inner<'a>(
    rule: Rule,
    allowed: &[Inner],
    nodes: Nodes<'a>,
) -> Result<(), Breach<'a>>
    ensures ok { IfOk result (λ u. AllByRecursion (λ t. is_follower (map follower allowed.now) (bare t) ≡ true) (all nodes.entry)) }
    ensures err { IfErr result (λ b. FollowerFault (misplaced Kind.BadForm (row_of rule)) (map follower allowed.now) (all nodes.entry) (fault_of b)) }
{
    for node in nodes.iter() {
        if !may_follow(allowed, argument_at(node)) {
            return Err(misplaced_at(rule, node));
        }
    }
    Ok(())
}

/// Checks that no form with this keyword stands twice.
fn check_once<'a>(keyword: Keyword, nodes: Nodes<'a>) -> Result<(), Breach<'a>>
    ensures ok { IfOk result (λ u. length (those_of keyword (all nodes.entry)) ≤ 1) }
    ensures err { IfErr result (λ b. AtTwo (λ x y. fault_of b ≡ MeaningFault.At Kind.BadForm (place_of y)) (those_of keyword (all nodes.entry))) }
{
    let mut is_there = false;
    for node in nodes.iter() {
        if !is_form_of(node, keyword) {
            continue;
        }
        if is_there {
            return Err(Breach::BadForm {
                place: node.place(),
            });
        }
        is_there = true;
    }
    Ok(())
}

/// Checks that none of which one is allowed stands twice. A second one whose fault has a kind of its own passes.
#[inline(always)]
pub(crate) fn check_seconds<'a>(allowed: &[Inner], nodes: Nodes<'a>) -> Result<(), Breach<'a>>
    ensures ok { (j : ℕ) (a : Follower) → slice_get (map follower allowed.now) j ≡ Some a → IfOk result (λ u. OnceFits a (all nodes.entry)) }
    ensures err { IfErr result (λ b. SecondFault (map follower allowed.now) (all nodes.entry) (fault_of b)) }
{
    if nodes.len() < 2 {
        return Ok(());
    }
    for inner in allowed {
        let Inner::Once(keyword) = *inner else {
            continue;
        };
        if second_is_bad_form(keyword) {
            check_once(keyword, nodes)?;
        }
    }
    Ok(())
}
