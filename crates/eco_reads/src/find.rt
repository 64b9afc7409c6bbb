//! Look-ups by name in lists.
ghost use Rattle.std.specs.Prelude.{◌≡◌, ◌%◌, ◌^◌, length, position, IfSome, ◌<◌};
ghost use Rattle.std.specs.List.{list_any};
ghost use Rattle.netlist_schema.specs.Marks.{hash_of};
ghost use Rattle.edit_rules_spec.specs.Find.{inst_place, is_name, is_same, net_place, port_place, property_place};

use edit_cells::is_same;
use netlist_schema::{Ident, Inst, Listed, Net, Parts, Port, Property, Row, name_number};

/// Whether a net has this name, whose number is known.
#[tactic(auto, using(crate::proofs::Numbered::apart_name))]
fn is_net(net: &Listed<Net>, number: u32, name: &Ident) -> bool
    requires { number ≡ hash_of name.now % 2 ^ 32 }
    ensures { result ≡ is_name net.now.name.id name.now }
{
    net.mark().name == number && net.name.id == *name
}

fn net_position(nets: &Parts<Listed<Net>>, name: &Ident) -> Option<usize>
    ensures { result ≡ position (λ net. is_name net.name.id name.now) nets.now }
{
    let number = name_number(name);
    nets.iter().position(|net| is_net(net, number, name))
}

/// Whether an instance has this name, whose number is known.
#[tactic(auto, using(crate::proofs::Numbered::apart_name))]
fn is_inst(inst: &Listed<Inst>, number: u32, name: &Ident) -> bool
    requires { number ≡ hash_of name.now % 2 ^ 32 }
    ensures { result ≡ is_name inst.now.name.id name.now }
{
    inst.mark().name == number && inst.name.id == *name
}

fn inst_position(insts: &Parts<Listed<Inst>>, name: &Ident) -> Option<usize>
    ensures { result ≡ position (λ inst. is_name inst.name.id name.now) insts.now }
{
    let number = name_number(name);
    insts.iter().position(|inst| is_inst(inst, number, name))
}

fn port_position(ports: &Row<Port>, name: &Ident) -> Option<usize>
    ensures { result ≡ position (λ port. is_name port.name.id name.now) ports.now }
{
    ports
        .as_slice()
        .iter()
        .position(|port| port.name.id == *name)
}

/// The place of the net with this name.
pub fn net_place(nets: &Parts<Listed<Net>>, name: &Ident) -> Option<usize>
    ensures value { result ≡ net_place name.now nets.now }
    ensures within { IfSome result (λ place. place < length nets.now) }
{
    net_position(nets, name)
}

/// The place of the instance with this name.
pub fn inst_place(insts: &Parts<Listed<Inst>>, name: &Ident) -> Option<usize>
    ensures value { result ≡ inst_place name.now insts.now }
    ensures within { IfSome result (λ place. place < length insts.now) }
{
    inst_position(insts, name)
}

/// The place of the port with this name.
pub fn port_place(ports: &Row<Port>, name: &Ident) -> Option<usize>
    ensures value { result ≡ port_place name.now ports.now }
    ensures within { IfSome result (λ place. place < length ports.now) }
{
    port_position(ports, name)
}

/// Whether a net has a name that is equal to this one, whose number is known, where case is ignored.
#[tactic(auto, using(crate::proofs::Numbered::apart_same))]
fn is_same_net(net: &Listed<Net>, number: u32, name: &Ident) -> bool
    requires { number ≡ hash_of name.now % 2 ^ 32 }
    ensures { result ≡ is_same net.now.name.id name.now }
{
    net.mark().name == number && is_same(&net.name.id, name)
}

/// Whether a net has this name, where case is ignored.
pub fn is_net_taken(nets: &Parts<Listed<Net>>, name: &Ident) -> bool
    ensures { result ≡ list_any (λ net. is_same net.name.id name.now) nets.now }
{
    let number = name_number(name);
    nets.iter().any(|net| is_same_net(net, number, name))
}

/// Whether an instance has a name that is equal to this one, whose number is known, where case is ignored.
#[tactic(auto, using(crate::proofs::Numbered::apart_same))]
fn is_same_inst(inst: &Listed<Inst>, number: u32, name: &Ident) -> bool
    requires { number ≡ hash_of name.now % 2 ^ 32 }
    ensures { result ≡ is_same inst.now.name.id name.now }
{
    inst.mark().name == number && is_same(&inst.name.id, name)
}

/// Whether an instance has this name, where case is ignored.
pub fn is_inst_taken(insts: &Parts<Listed<Inst>>, name: &Ident) -> bool
    ensures { result ≡ list_any (λ inst. is_same inst.name.id name.now) insts.now }
{
    let number = name_number(name);
    insts.iter().any(|inst| is_same_inst(inst, number, name))
}

fn property_position(properties: &[Property], key: &Ident) -> Option<usize>
    ensures { result ≡ position (λ property. is_name property.key.id key.now) properties.now }
{
    properties
        .iter()
        .position(|property| property.key.id == *key)
}

/// The place of the property with this key.
pub fn property_place(properties: &[Property], key: &Ident) -> Option<usize>
    ensures value { result ≡ property_place key.now properties.now }
    ensures within { IfSome result (λ place. place < length properties.now) }
{
    property_position(properties, key)
}
