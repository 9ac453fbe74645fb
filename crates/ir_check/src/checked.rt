// A module that was accepted.
ghost use Rattle.std.specs.Prelude.{◌≡◌, IfOk};
ghost use Rattle.ir_rules.specs.Accepted.{IsAccepted};
ghost use Rattle.ir_rules.specs.Kinds as kinds;
ghost use Rattle.ir_rules.specs.Scopes as scopes;
ghost use Rattle.ir_tree.specs.Functions.{function_place};
ghost use Rattle.ir_tree.specs.Names.{Indexes};

use check_names::first_of_names;
use ir_limits::kind_of;
use ir_rules::Kind;
use ir_tree::{Index, Module};
use pgo_base::NoMemory;
use std::alloc::Global;
use std::marker::Model;

/// An accepted module. Contracts see it as the module.
#[derive(Drop)]
pub struct Checked {
    module: Module,
    symbols: Index,
}

impl Model for Checked {
    ghost use Rattle.ir_rules.specs.Accepted.{IsAccepted};
    ghost use Rattle.ir_rules.specs.Scopes as scopes;
    ghost use Rattle.ir_tree.specs.Names.{Indexes};
    ghost use Rattle.ir_tree.specs.contracts.types.Module as row;
    ghost use Rattle.ir_tree.specs.declared.types.Module.{Module};

    ghost Value = { Module };

    ghost coded = { row.the_row.coded };

    ghost view = { λ c. c.«module» };

    ghost invariant = { λ c. IsAccepted c.«module» × Indexes c.symbols (scopes.symbols c.«module») };
}

impl Checked {
    // The accepted module with the index of the names of its global variables and functions.
    pub(crate) fn of(module: Module, symbols: Index) -> Checked
        requires accepted { IsAccepted «module» }
        requires indexed { Indexes symbols (scopes.symbols «module») }
        ensures { result ≡ «module» }
    {
        Checked { module, symbols }
    }

    /// A module that its maker has proved to be accepted, as a checked one: a transformation need not have its result checked again.
    /// Only memory can be wanting, for the index of the module's names.
    pub fn of_accepted(alloc: Global, module: Module) -> Result<Checked, NoMemory>
        requires { IsAccepted «module» }
        ensures { IfOk result (λ checked. checked ≡ «module») }
    {
        let (symbols, _) = first_of_names(alloc, &module)?;
        Ok(Checked::of(module, symbols))
    }

    /// The kind of the module. Takes no memory.
    pub fn kind(&self) -> Kind
        ensures { result ≡ kinds.kind_of self.now.functions }
    {
        kind_of(self.module.functions.as_slice())
    }

    /// The module, which is accepted. Takes no memory.
    pub fn module(&self) -> &Module
        ensures value { result.now ≡ self.now }
        ensures accepted { IsAccepted self.now }
    {
        &self.module
    }

    /// Gives the module back. Takes no memory.
    pub fn into_module(self) -> Module
        ensures value { result ≡ self }
        ensures accepted { IsAccepted self }
    {
        let Checked { module, symbols: _ } = self;
        module
    }

    /// The place of a function in the module's list, None exactly where no function has the name.
    /// Takes no memory.
    pub fn function_at(&self, name: &[u8]) -> Option<usize>
        ensures { result ≡ function_place self.now.functions name.now }
    {
        match self.symbols.find(name) {
            Some(place) => place.checked_sub(self.module.globals.len()),
            None => None,
        }
    }
}
