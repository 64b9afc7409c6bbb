//! Copies of the values of a design.
ghost use Rattle.std.specs.Prelude.{All};
ghost use Rattle.netlist_schema.specs.Ident.{IsIdentifier};
ghost use Rattle.netlist_schema.specs.Typed.{IsBytes, IsTypedCellData, IsTypedInst, IsTypedName, IsTypedNote, IsTypedNum, IsTypedPort, IsTypedProperty, IsTypedValue};

use crate::cell::{CellBody, Contents, End, Inst, Net, Port};
use crate::ident::Ident;
use crate::library::{Lib, LibHead, Note, TopHead};
use crate::property::{Name, Num, Property, Value};
use crate::text::Text;
use netlist_pages::{Copied, NoMemory};
use std::alloc::Global;

impl Copied for Text {
    ghost typed = { IsBytes };

    fn copy(&self, alloc: Global) -> Result<Text, NoMemory> {
        Ok(Text::of(self.as_slice().to_vec(alloc)?))
    }
}

impl Copied for Ident {
    ghost typed = { IsIdentifier };

    fn copy(&self, alloc: Global) -> Result<Ident, NoMemory> {
        self.copy(alloc)
    }
}

impl Copied for End {
    ghost typed = { λ _. Unit {0} };

    fn copy(&self, _alloc: Global) -> Result<End, NoMemory> {
        Ok(*self)
    }
}

impl Copied for Name {
    ghost typed = { IsTypedName };

    fn copy(&self, alloc: Global) -> Result<Name, NoMemory> {
        Ok(Name {
            id: self.id.copy(alloc)?,
            shown: self.shown.copy(alloc)?,
        })
    }
}

impl Copied for Num {
    ghost typed = { IsTypedNum };

    fn copy(&self, _alloc: Global) -> Result<Num, NoMemory> {
        match *self {
            Num::Int(n) => Ok(Num::Int(n)),
            Num::Scaled { mantissa, exponent } => Ok(Num::Scaled { mantissa, exponent }),
        }
    }
}

impl Copied for Value {
    ghost typed = { IsTypedValue };

    fn copy(&self, alloc: Global) -> Result<Value, NoMemory> {
        match self {
            Value::Boolean(b) => Ok(Value::Boolean(*b)),
            Value::Integer(n) => Ok(Value::Integer(*n)),
            Value::Number(n) => Ok(Value::Number(n.copy(alloc)?)),
            Value::Text(text) => Ok(Value::Text(text.copy(alloc)?)),
        }
    }
}

impl Copied for Property {
    ghost typed = { IsTypedProperty };

    fn copy(&self, alloc: Global) -> Result<Property, NoMemory> {
        Ok(Property {
            key: self.key.copy(alloc)?,
            value: self.value.copy(alloc)?,
            owner: self.owner.copy(alloc)?,
        })
    }
}

impl Copied for Port {
    ghost typed = { IsTypedPort };

    fn copy(&self, alloc: Global) -> Result<Port, NoMemory> {
        Ok(Port {
            name: self.name.copy(alloc)?,
            array: self.array.copy(alloc)?,
            direction: self.direction,
            designator: self.designator.copy(alloc)?,
            properties: self.properties.copy(alloc)?,
        })
    }
}

impl Copied for Inst {
    ghost typed = { IsTypedInst };

    fn copy(&self, alloc: Global) -> Result<Inst, NoMemory> {
        Ok(Inst {
            name: self.name.copy(alloc)?,
            of: self.of,
            designator: self.designator.copy(alloc)?,
            properties: self.properties.copy(alloc)?,
        })
    }
}

impl Copied for Net {
    ghost typed = { λ net. IsTypedName net.name };

    fn copy(&self, alloc: Global) -> Result<Net, NoMemory> {
        Ok(Net {
            name: self.name.copy(alloc)?,
            ends: self.ends.copy(alloc)?,
            properties: self.properties.share()?,
        })
    }
}

impl Copied for Contents {
    ghost typed = { λ _. Unit {0} };

    fn copy(&self, alloc: Global) -> Result<Contents, NoMemory> {
        Ok(Contents {
            insts: self.insts.copy(alloc)?,
            nets: self.nets.copy(alloc)?,
        })
    }
}

impl Copied for CellBody {
    ghost typed = { IsTypedCellData };

    fn copy(&self, alloc: Global) -> Result<CellBody, NoMemory> {
        Ok(CellBody {
            name: self.name.copy(alloc)?,
            kind: self.kind,
            properties: self.properties.copy(alloc)?,
            view: self.view.copy(alloc)?,
            view_properties: self.view_properties.copy(alloc)?,
            interface_properties: self.interface_properties.copy(alloc)?,
            ports: self.ports.copy(alloc)?,
            contents: self.contents.copy(alloc)?,
        })
    }
}

impl Copied for LibHead {
    ghost typed = { λ head. IsTypedName head.name };

    fn copy(&self, alloc: Global) -> Result<LibHead, NoMemory> {
        Ok(LibHead {
            name: self.name.copy(alloc)?,
            external: self.external,
        })
    }
}

impl Copied for Lib {
    ghost typed = { λ lib. IsTypedName lib.head.name × All IsTypedCellData lib.cells };

    fn copy(&self, alloc: Global) -> Result<Lib, NoMemory> {
        Ok(Lib {
            head: self.head.copy(alloc)?,
            cells: self.cells.copy(alloc)?,
        })
    }
}

impl Copied for TopHead {
    ghost typed = { λ top. IsTypedName top.name × All IsTypedProperty top.properties };

    fn copy(&self, alloc: Global) -> Result<TopHead, NoMemory> {
        Ok(TopHead {
            name: self.name.copy(alloc)?,
            cell: self.cell,
            properties: self.properties.copy(alloc)?,
        })
    }
}

impl Copied for Note {
    ghost typed = { IsTypedNote };

    fn copy(&self, alloc: Global) -> Result<Note, NoMemory> {
        Ok(Note {
            path: self.path.copy(alloc)?,
            property: self.property.copy(alloc)?,
        })
    }
}
