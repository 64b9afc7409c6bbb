//! The first nets that are connected with the nets of an occurrence, by the names that its frame has.
ghost use Rattle.std.specs.Prelude.{◌≡◌, ◌≤◌, IsSome, Some, length};
ghost use Rattle.flat_spec.specs.Paths.{IsNet, at_path, at_root};
ghost use Rattle.flat_spec.specs.Representatives.{representative};
ghost use Rattle.net_names.specs.Names.{name_in, net_named};
ghost use Rattle.flat_items.specs.Lent.{net_of as net_lent};
ghost use Rattle.flat_items.specs.Stand.{IsFrame, IsGround, top_of};
ghost use Rattle.flat_items.specs.Texts.{IsFront};

use crate::ground::Ground;
use crate::lent::NetRef;
use crate::place::Frame;
use net_names::NetName;
use netlist_schema::Shown;

/// The net of a name, where the path leads to the occurrence whose net has it.
#[inline(always)]
fn net_of(path: &[u32], name: NetName) -> NetRef<'_>
    requires { name.depth ≤ length path.now }
    ensures net { net_lent result ≡ net_named path.now name }
    ensures front { IsFront path.now result.path.now }
{
    NetRef {
        path: &path[..name.depth as usize],
        net: name.net,
    }
}

/// The name of a net, which has one.
#[inline(always)]
fn name_at(names: &[NetName], firsts: &[u32], net: u32) -> NetName
    requires { IsSome (name_in names.now firsts.now net) }
    ensures { name_in names.now firsts.now net ≡ Some result }
{
    names[firsts[net as usize] as usize]
}

/// The first net of the design that is connected with a net of the frame's occurrence, to which the path leads.
#[inline(always)]
pub(crate) fn first_of<'a, S: Shown + Drop>(
    ground: &Ground<S>,
    path: &'a [u32],
    frame: &Frame,
    net: u32,
) -> NetRef<'a>
    requires ground { IsGround (S.design ground.now.design) ground.now.classes ground.now.notes }
    requires frame { IsFrame (S.design ground.now.design) path.now frame.now }
    requires net { IsNet (S.design ground.now.design) frame.now.cell (at_root net) }
    ensures net { net_lent result ≡ representative (S.design ground.now.design) (top_of (S.design ground.now.design)).cell (at_path path.now net) }
    ensures front { IsFront path.now result.path.now }
{
    let firsts = ground.classes.firsts(frame.cell);
    let name = name_at(frame.names.as_slice(), firsts, net);
    net_of(path, name)
}
