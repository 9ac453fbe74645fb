// The functions of a module by their numbers.
ghost use Rattle.std.specs.Prelude.{◌≡◌, map, position, slice_get, IfOk};
ghost use Rattle.std.specs.Option.{option_copied};
ghost use Rattle.ir_tree.specs.Functions.{numbered};
ghost use Rattle.ir_tree.specs.Names.{same, Indexes};

use crate::functions::is_profile_name;
use crate::index::Index;
use crate::types::Function;
use pgo_base::NoMemory;
use std::alloc::{AllocError, Global};
use std::marker::Model;

/// The functions of a module that have a number, found by it and by name without a scan. Contracts see the list of them.
#[derive(Drop)]
pub struct Numbering<'a> {
    functions: Vec<&'a Function>,
    names: Index,
}

impl<'a> Model for Numbering<'a> {
    ghost use Rattle.std.specs.Prelude.{List, map};
    ghost use Rattle.std.specs.Coded.{coded_list};
    ghost use Rattle.ir_tree.specs.Names.{Indexes};
    ghost use Rattle.ir_tree.specs.contracts.types.Function as row;
    ghost use Rattle.ir_tree.specs.declared.types.Function.{Function};

    ghost Value = { List Function };

    ghost coded = { coded_list row.the_row.coded };

    ghost view = { λ n. map (λ f. f.now) n.functions.items };

    ghost invariant = { λ n. Indexes n.names (map (λ f. f.name) (map (λ f. f.now) n.functions.items)) };
}

fn numbered<'a>(alloc: Global, functions: &'a [Function]) -> Result<Vec<&'a Function>, AllocError>
    ensures { IfOk result (λ v. map (λ f. f.now) v.items ≡ numbered functions.now) }
{
    functions
        .iter()
        .filter(|f| !is_profile_name(f.name.bytes()))
        .collect(alloc)
}

fn index_of(alloc: Global, functions: &[&Function]) -> Result<Index, NoMemory>
    ensures { IfOk result (λ index. Indexes index (map (λ f. f.name) (map (λ f. f.now) functions.now))) }
{
    let mut index = Index::new(alloc);
    for (i, function) in functions.iter().enumerate() {
        index.add(alloc, function.name.bytes(), i)?;
    }
    Ok(index)
}

impl<'a> Numbering<'a> {
    /// The functions that have a number: all but those of the profile runtime, from 0 on in text order.
    pub fn of(alloc: Global, functions: &'a [Function]) -> Result<Numbering<'a>, NoMemory>
        ensures { IfOk result (λ n. n ≡ numbered functions.now) }
    {
        let functions = numbered(alloc, functions)?;
        let names = index_of(alloc, functions.as_slice())?;
        Ok(Numbering { functions, names })
    }

    /// The function of a number. Takes no memory.
    pub fn get(&self, number: usize) -> Option<&'a Function>
        ensures { option_copied result ≡ slice_get self.now number }
    {
        self.functions.get(number).copied()
    }

    /// The number of the first function of a name, None exactly where none of them has it. Takes no memory.
    pub fn find(&self, name: &[u8]) -> Option<usize>
        ensures { result ≡ position (same name.now) (map (λ f. f.name) self.now) }
    {
        self.names.find(name)
    }
}
