//! `Text`: a list of bytes.
ghost use Rattle.std.specs.Prelude.{◌≡◌, ◌<◌, All};

use std::marker::Model;

/// A list of bytes, as contracts see it: any bytes, in no encoding. It is made from a `Vec` and gives it back, and neither
/// takes memory.
#[derive(Debug, Drop)]
pub struct Text {
    items: Vec<u8>,
}

impl Model for Text {
    ghost use Rattle.std.specs.Prelude.{List, ℕ, ◌<◌, All};

    ghost Value = { List ℕ };

    ghost view = { λ r. r.items.items };

    ghost invariant = { λ r. All (λ b. b < 256) r.items.items };
}

impl Text {
    /// The text of these bytes. Takes no memory.
    pub fn of(items: Vec<u8>) -> Text
        ensures { result ≡ items.items }
    {
        Text { items }
    }

    /// Lends the bytes, in order.
    pub fn as_slice(&self) -> &[u8]
        ensures value { result.now ≡ self.now }
        ensures bytes { All (λ b. b < 256) self.now }
    {
        self.items.as_slice()
    }

    /// Gives the bytes back. Takes no memory.
    pub fn into_vec(self) -> Vec<u8>
        ensures { result.items ≡ self }
    {
        let Text { items } = self;
        items
    }
}
