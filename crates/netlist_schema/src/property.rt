//! Names and properties.
use crate::ident::Ident;
use crate::text::Text;

/// A name: its identifier, and the text of a rename where there is one.
#[derive(Debug, PartialEq, Eq)]
pub struct Name {
    pub id: Ident,
    pub shown: Option<Text>,
}

impl Drop for Name {
    fn drop(self) {
        let Name { id: _, shown: _ } = self;
    }
}

/// A number as written: `Scaled` is the mantissa times ten to the exponent.
#[derive(Clone, Copy, Debug, PartialEq, Eq)]
pub enum Num {
    Int(i64),
    Scaled { mantissa: i64, exponent: i32 },
}

/// What a property says. Numbers are signed, of 64 bits.
#[derive(Debug, PartialEq, Eq, Drop)]
pub enum Value {
    Boolean(bool),
    Integer(i64),
    Number(Num),
    Text(Text),
}

/// A property. Its key is the identifier of its name, and its owner a text where there is one.
#[derive(Debug, PartialEq, Eq)]
pub struct Property {
    pub key: Name,
    pub value: Value,
    pub owner: Option<Text>,
}

impl Drop for Property {
    fn drop(self) {
        let Property {
            key: _,
            value: _,
            owner: _,
        } = self;
    }
}
