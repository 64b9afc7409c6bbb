//! Whether scripts walk.
ghost use Rattle.std.specs.Prelude.{◌≡◌, ◌↔◌, IsTrue};
ghost use Rattle.std.specs.List.{list_any};
ghost use Rattle.script_spec.specs.Headline.{SomeWalks};
ghost use Rattle.script_run_spec.specs.Scripts.{all_steps};
ghost use Rattle.history_check_spec.specs.Printed.{CannotWalk};
ghost use Rattle.script_walks.specs.Walking.{is_walk};

use netlist_schema::{Design, Shown};
use script_spec::{Script, Step};

/// Whether a step walks.
fn is_walking(step: &Step) -> bool
    ensures { result ≡ is_walk step.now }
{
    matches!(step, Step::Walk { .. })
}

/// Whether a script walks.
fn walks(script: &Script) -> bool
    ensures { result ≡ list_any (λ line. is_walk line.step) script.now.lines }
{
    script.lines().iter().any(|line| is_walking(&line.step))
}

/// Whether one of scripts walks.
fn one_walks(scripts: &[Script]) -> bool
    ensures { result ≡ list_any (λ script. list_any (λ line. is_walk line.step) script.lines) scripts.now }
{
    scripts.iter().any(|script| walks(script))
}

/// Whether some script walks.
fn some_walks(scripts: &[Script]) -> bool
    ensures { IsTrue result ↔ SomeWalks (all_steps scripts.now) }
{
    one_walks(scripts)
}

/// Whether a script walks, and the design has no top.
pub fn cannot_walk(design: &Design, scripts: &[Script]) -> bool
    ensures { IsTrue result ↔ CannotWalk design.now (all_steps scripts.now) }
{
    match design.top() {
        Some(_) => false,
        None => some_walks(scripts),
    }
}
