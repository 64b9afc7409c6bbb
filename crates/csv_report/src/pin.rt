//! `PinRef`: what an item says of a pin.
use flat_items::NetRef;

/// A pin: the path of its occurrence, its port there, the bit of the port, and the representative of the net that joins the bit, where one
/// does.
#[derive(Clone, Copy)]
pub struct PinRef<'a> {
    pub path: &'a [u32],
    pub port: u32,
    pub bit: u32,
    pub first: Option<NetRef<'a>>,
}
