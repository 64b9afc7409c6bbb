//! `Width`: the number of bits of a port.
ghost use Rattle.std.specs.Prelude.{◌≡◌, ◌↔◌, IsSome, IfSome};
ghost use Rattle.netlist_schema.specs.Width.{IsWidth};

use crate::limits::MOST_WIDTH;
use netlist_pages::{Copied, NoMemory};
use std::alloc::Global;
use std::marker::Model;

/// The number of bits of an array port, from 1 to `MOST_WIDTH`.
#[derive(Clone, Copy, Debug, PartialEq, Eq)]
pub struct Width {
    bits: u32,
}

impl Model for Width {
    ghost use Rattle.std.specs.Prelude.{ℕ};
    ghost use Rattle.netlist_schema.specs.Width.{IsWidth};

    ghost Value = { ℕ };

    ghost view = { λ w. w.bits };

    ghost invariant = { λ w. IsWidth w.bits };

    ghost inverse = { λ n. record { bits = n } };
}

impl Width {
    /// The width of `n` bits: `None` exactly where `n` is not from 1 to `MOST_WIDTH`.
    pub fn of(n: u32) -> Option<Width>
        ensures some { IsSome result ↔ IsWidth n }
        ensures value { IfSome result (λ width. width ≡ n) }
    {
        if n == 0 || n > MOST_WIDTH {
            return None;
        }
        Some(Width { bits: n })
    }

    /// The number of bits.
    pub fn get(&self) -> u32
        ensures value { result ≡ self.now }
        ensures width { IsWidth self.now }
    {
        self.bits
    }
}

impl Copied for Width {
    ghost typed = { IsWidth };

    fn copy(&self, _alloc: Global) -> Result<Width, NoMemory> {
        Ok(Width { bits: self.bits })
    }
}
