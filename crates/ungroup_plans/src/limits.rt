//! Limits of contents.
ghost use Rattle.std.specs.Prelude.{◌≡◌, ◌<◌, ◌+◌, ◌-◌, ◌^◌, [], ◌∷◌, length, min, nat_lt};
ghost use Rattle.std.specs.List.{flat_map};
ghost use Rattle.netlist_schema.specs.declared.limits.TheConstants.{MOST_ENDS, MOST_INSTS, MOST_NETS};
ghost use Rattle.edit_rules_spec.specs.Rule.{first, refuse};

use crate::groups::Grouped;
use edit_spec::Reply;
use netlist_schema::{Listed, MOST_ENDS, MOST_INSTS, MOST_NETS, Net};

/// The ends of nets, added to a count; the greatest number of 64 bits stands for more.
fn count_ends(nets: &[Listed<Net>], count: u64) -> u64
    ensures { result ≡ min (count + length (flat_map (λ net. net.ends) nets.now)) (2 ^ 64 - 1) }
{
    let mut count = count;
    for net in nets {
        count = count.saturating_add(net.ends.as_slice().len() as u64);
    }
    count
}

/// The refusal of so many instances.
pub(crate) fn over_insts(around: usize, within: usize) -> Option<Reply>
    requires { 0 < around }
    ensures { result ≡ refuse (nat_lt MOST_INSTS (around - 1 + within)) (Reply.TooMany MOST_INSTS) }
{
    if (around - 1).saturating_add(within) > MOST_INSTS {
        Some(Reply::TooMany {
            limit: MOST_INSTS as u64,
        })
    } else {
        None
    }
}

/// The refusal of so many nets, or of so many ends.
pub(crate) fn over_nets(grouped: &Grouped) -> Option<Reply>
    ensures { result ≡ first (refuse (nat_lt MOST_NETS (length grouped.now.kept + length grouped.now.loose)) (Reply.TooMany MOST_NETS)
        ∷ refuse (nat_lt MOST_ENDS (length (flat_map (λ net. net.ends) grouped.now.kept) + length (flat_map (λ net. net.ends) grouped.now.loose))) (Reply.TooMany MOST_ENDS) ∷ []) }
{
    let kept = grouped.kept.as_slice();
    let loose = grouped.loose.as_slice();
    if kept.len().saturating_add(loose.len()) > MOST_NETS {
        return Some(Reply::TooMany {
            limit: MOST_NETS as u64,
        });
    }
    if count_ends(loose, count_ends(kept, 0)) > MOST_ENDS as u64 {
        return Some(Reply::TooMany {
            limit: MOST_ENDS as u64,
        });
    }
    None
}
