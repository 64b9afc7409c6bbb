//! What an electrical check finds.
use flat_spec::{NetAt, Path};

/// What is found of a net and those connected with it, or of a pin.
#[derive(Debug, PartialEq, Eq)]
pub enum Finding {
    /// No pin drives this net, which is the first of those connected with it.
    Undriven { at: NetAt },
    /// So many pins, two at least, drive this net strongly, which is the first of those connected with it. The count stands still at
    /// the greatest number of 64 bits.
    Many { at: NetAt, strong: u64 },
    /// No net joins this input of a leaf: a bit of a port of the occurrence at the path.
    Open { path: Path, port: u32, bit: u32 },
}

impl Drop for Finding {
    fn drop(self) {
        match self {
            Finding::Undriven { at: _ } => {}
            Finding::Many { at: _, strong: _ } => {}
            Finding::Open {
                path: _,
                port: _,
                bit: _,
            } => {}
        }
    }
}
