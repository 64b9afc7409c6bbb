//! Opening the database of a design.
ghost use Rattle.std.specs.Prelude.{◌≤◌, IfErr, IfOk, length};
ghost use Rattle.netlist_schema.specs.declared.limits.TheConstants.{MOST_FILE_BYTES};
ghost use Rattle.edif_spec.specs.Files.{IsDesignFile, IsWrong};
ghost use Rattle.edif_file.specs.Steps.{Says};
ghost use Rattle.netdb_calls.specs.Opening.{Opens, OpensDesign, OpensWrong};

use crate::opened::{Inside, Opened};
use call_status::Status;
use edif_file::{DesignReader, NoDesign, fault_text};
use edif_spec::EdifFault;
use netdb_desk::Desk;
use netlist_schema::{Design, MOST_FILE_BYTES, NoMemory};
use std::alloc::Global;

/// The design of bytes.
fn design_of(alloc: Global, bytes: &[u8]) -> Result<Design, NoDesign>
    requires { length bytes.now ≤ MOST_FILE_BYTES }
    ensures design { IfOk result (IsDesignFile bytes.now) }
    ensures fault { IfErr result (Says (IsWrong bytes.now)) }
{
    let mut reader = DesignReader::new(alloc);
    let Ok(()) = reader.feed(bytes) else {
        return Err(NoDesign::NoMemory);
    };
    reader.finish()
}

/// The database of a design.
fn of_design(alloc: Global, design: Design) -> Result<(Opened, Status), Status>
    ensures { OpensDesign design result }
{
    match Desk::open(alloc, design) {
        Ok(desk) => Ok((
            Opened {
                inside: Inside::Desk(desk),
                text: Vec::new(alloc),
            },
            Status::Done,
        )),
        Err(NoMemory) => Err(Status::NoMemory),
    }
}

/// The text of what is wrong with bytes.
fn of_fault(alloc: Global, fault: &EdifFault) -> Result<(Opened, Status), Status>
    ensures { OpensWrong fault.now result }
{
    let Ok(said) = fault_text(alloc, fault) else {
        return Err(Status::NoMemory);
    };
    match said.as_slice().to_vec(alloc) {
        Ok(text) => Ok((
            Opened {
                inside: Inside::Refused,
                text,
            },
            Status::BadDesign,
        )),
        Err(_) => Err(Status::NoMemory),
    }
}

/// What bytes open: the database of the design that they mean, at whose seats nothing is held, or the text of what is wrong with them.
/// `TooLarge` comes exactly where there are more than 134,217,728 bytes.
pub fn open(alloc: Global, bytes: &[u8]) -> Result<(Opened, Status), Status>
    ensures { Opens bytes.now result }
{
    if bytes.len() as u64 > MOST_FILE_BYTES {
        return Err(Status::TooLarge);
    }
    match design_of(alloc, bytes) {
        Ok(design) => of_design(alloc, design),
        Err(NoDesign::Fault(fault)) => of_fault(alloc, &fault),
        Err(NoDesign::NoMemory) => Err(Status::NoMemory),
    }
}
