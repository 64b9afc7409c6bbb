//! `Questions`: what is asked of a version by names.
ghost use Rattle.std.specs.Prelude.{◌≡◌, ◌↔◌, Err, IfOk, None};
ghost use Rattle.ask_spec.specs.Nets.{inner_net_of, net_of};
ghost use Rattle.netdb_questions.specs.Answers.{BeginsInsts, BeginsNets, BeginsPins, FindsFirst, FindsNet, FindsOccurrence, FindsSame};
ghost use Rattle.netdb_questions.specs.Lists.{Gives};

use crate::answers::{find_first, find_inner_net, find_net, find_occurrence, find_same};
use crate::finding::{NetName, Refusal};
use crate::lists::{Begun, NextError, begin_insts, begin_nets, begin_pins, next_of};
use ask_names::Names;
use ask_spec::Role;
use db_version::Snapshot;
use flat_ask::{Ask, AskError};
use flat_spec::Item;
use netlist_schema::{NoMemory, Shown};
use std::alloc::Global;
use std::marker::Model;

/// A version of a design of which something is asked by names, with the list that was begun last. It stays when the database is gone and
/// when the version is dropped there. Contracts see the version and the items that are left of the list.
pub struct Questions {
    alloc: Global,
    version: u64,
    names: Names<Snapshot>,
    ask: Ask<Snapshot>,
    list: Begun,
}

impl Drop for Questions {
    fn drop(self) {
        let Questions {
            alloc: _,
            version: _,
            names: _,
            ask: _,
            list: _,
        } = self;
    }
}

impl Model for Questions {
    ghost use Rattle.std.specs.Prelude.{◌≡◌};
    ghost use Rattle.netdb_questions.specs.Facts.{QuestionFacts};

    ghost Value = { QuestionFacts };

    ghost use Rattle.netdb_questions.specs.Lists.{left_of};

    ghost view = { λ q. record { version = record { version = q.version; design = q.ask }; left = left_of q.ask q.list } };

    ghost invariant = { λ q. q.names ≡ q.ask };
}

/// The names of a version.
fn names_of(alloc: Global, version: &Snapshot) -> Result<Names<Snapshot>, NoMemory>
    ensures { IfOk result (λ names. names ≡ version.now.design) }
{
    let shared = version.share()?;
    Names::of(alloc, shared)
}

/// Makes ready to ask of a version with these names.
fn with_names(
    alloc: Global,
    names: Names<Snapshot>,
    version: Snapshot,
) -> Result<Questions, AskError>
    requires { names ≡ version.design }
    ensures made { IfOk result (λ questions. questions ≡ record { version = version; left = None }) }
    ensures no_top { (result ≡ Err AskError.NoTop) ↔ (version.design.top ≡ None) }
{
    let number = version.version();
    let ask = Ask::of(alloc, version)?;
    Ok(Questions {
        alloc,
        version: number,
        names,
        ask,
        list: Begun::Nothing,
    })
}

impl Questions {
    /// Makes ready to ask of a version, of which nothing was listed. `NoTop` comes exactly where its design has no top. It takes time and
    /// memory in proportion to the cells of the design with what is in them: never in proportion to occurrences.
    pub fn of(alloc: Global, version: Snapshot) -> Result<Questions, AskError>
        ensures made { IfOk result (λ questions. questions ≡ record { version = version; left = None }) }
        ensures no_top { (result ≡ Err AskError.NoTop) ↔ (version.design.top ≡ None) }
    {
        let Some(_) = version.top() else {
            return Err(AskError::NoTop);
        };
        match names_of(alloc, &version) {
            Ok(names) => with_names(alloc, names, version),
            Err(NoMemory) => Err(AskError::NoMemory),
        }
    }

    /// The number of the version. Takes no memory.
    pub fn version(&self) -> u64
        ensures { result ≡ self.now.version.version }
    {
        self.version
    }

    /// Lends the version's design. Takes no memory.
    pub fn design(&self) -> &Snapshot
        ensures { result.now.design ≡ self.now.version.design }
    {
        self.ask.design()
    }

    /// The occurrence at a path, with its cell and its effective properties. A path is a text as a script writes it, identifiers with `/`
    /// between them, or with one more `/` before them all; `/` is the top. `NoPath` comes exactly where it is none or leads to no
    /// occurrence.
    pub fn at(&self, path: &[u8]) -> Result<Item, Refusal>
        ensures { FindsOccurrence self.now.version.design path.now result }
    {
        find_occurrence(self.alloc, &self.names, &self.ask, path)
    }

    /// The first of the nets that are connected with the net at a bit of an occurrence, seen from outside. `NoPath` comes as from `at`, then
    /// `NoName` exactly where the occurrence has no such port or the port no such bit, then `NoNet` exactly where no net joins it there.
    pub fn net_of(&self, path: &[u8], port: &[u8], bit: u32) -> Result<Item, Refusal>
        ensures { FindsNet net_of self.now.version.design path.now port.now bit result }
    {
        find_net(self.alloc, &self.names, &self.ask, path, port, bit)
    }

    /// The same, seen from inside the occurrence: of the net of its own contents that joins the bit.
    pub fn inner_net_of(&self, path: &[u8], port: &[u8], bit: u32) -> Result<Item, Refusal>
        ensures { FindsNet inner_net_of self.now.version.design path.now port.now bit result }
    {
        find_inner_net(self.alloc, &self.names, &self.ask, path, port, bit)
    }

    /// The first of the nets that are connected with a net of an occurrence. `NoPath` comes as from `at`, then `NoName` exactly where the
    /// occurrence has no such net.
    pub fn first_of(&self, path: &[u8], net: &[u8]) -> Result<Item, Refusal>
        ensures { FindsFirst self.now.version.design path.now net.now result }
    {
        find_first(self.alloc, &self.names, &self.ask, path, net)
    }

    /// Whether two nets are connected. The first is refused as by `first_of`, and then the other.
    pub fn is_same_net(&self, one: NetName<'_>, other: NetName<'_>) -> Result<bool, Refusal>
        ensures { FindsSame self.now.version.design one.entry.path.now one.entry.net.now other.entry.path.now other.entry.net.now result }
    {
        find_same(&self.names, &self.ask, one, other)
    }

    /// Begins a list of the pins of a net that stand in a role at it, in place of one that was begun before. It is refused as by `first_of`,
    /// and then nothing was changed. Each pin comes as from `Ask::pins_of`, and in its time.
    pub fn pins(&mut self, role: Role, path: &[u8], net: &[u8]) -> Result<(), Refusal>
        ensures { BeginsPins self.old self.new role path.now net.now result }
    {
        match begin_pins(&self.names, &self.ask, role, path, net) {
            Ok(list) => {
                self.list = list;
                Ok(())
            }
            Err(refusal) => Err(refusal),
        }
    }

    /// Begins a list of the occurrences right below an occurrence, in place of one that was begun before. `NoPath` comes as from `at`, and
    /// then nothing was changed.
    pub fn insts(&mut self, path: &[u8]) -> Result<(), Refusal>
        ensures { BeginsInsts self.old self.new path.now result }
    {
        match begin_insts(&self.names, path) {
            Ok(list) => {
                self.list = list;
                Ok(())
            }
            Err(refusal) => Err(refusal),
        }
    }

    /// The same of the nets of an occurrence, each with the first of those that are connected with it.
    pub fn nets(&mut self, path: &[u8]) -> Result<(), Refusal>
        ensures { BeginsNets self.old self.new path.now result }
    {
        match begin_nets(&self.names, path) {
            Ok(list) => {
                self.list = list;
                Ok(())
            }
            Err(refusal) => Err(refusal),
        }
    }

    /// The next item of the list that was begun last: `None` exactly where none is left, and from then on. `NoList` comes exactly where none
    /// was begun. After `NoMemory`, which comes only of a list that was, nothing was changed.
    pub fn next(&mut self) -> Result<Option<Item>, NextError>
        ensures version { self.new.version ≡ self.old.version }
        ensures item { Gives self.old.left self.new.left result }
    {
        next_of(self.alloc, &self.ask, &mut self.list)
    }
}
