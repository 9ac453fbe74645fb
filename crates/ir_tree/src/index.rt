// An index of names, by which a name's first place in a list is found without a scan.
ghost use Rattle.std.specs.Prelude.{◌≡◌, ℕ, List, [], ◌∷◌, ◌++◌, length, is_some, not, IfOk, OnOk, OnErr};
ghost use Rattle.std.specs.Prelude.{nat_eq};
ghost use Rattle.std.specs.Cmp.Lexicographic.{pointwise, bytes_decides, nat_list_eq_equiv};
ghost use Rattle.std.specs.Hash as fed;
ghost use Rattle.std.proofs.Common.{ap};
ghost use Rattle.ir_tree.specs.Names.{first_place, Indexes};

use crate::firsts::put_first;
use crate::name::Name;
use indexmap::{Equivalent, IndexMap};
use pgo_base::NoMemory;
use std::alloc::Global;

/// The first place of each name in a list.
#[derive(Drop)]
pub struct Index {
    places: IndexMap<Name, usize>,
}

/// A name is looked up by its bytes, so that a look-up copies no name.
impl Equivalent<Name> for &[u8] {
    ghost equivalent = { λ q k. pointwise nat_eq q.now k };

    ghost respects_hash = { λ q k h. ap (fed.slice fed.u8) ((bytes_decides q.now k).0 h) };

    ghost respects_eq = { λ q x y. nat_list_eq_equiv.congr q.now x y };

    fn equivalent(&self, key: &Name) -> bool {
        *self == key.bytes()
    }
}

impl Index {
    /// The index of no names.
    pub fn new(alloc: Global) -> Index
        ensures { Indexes result [] }
    {
        Index {
            places: IndexMap::new(alloc),
        }
    }

    /// The index of no names, with room for so many.
    pub fn with_room(alloc: Global, count: usize) -> Result<Index, NoMemory>
        ensures { IfOk result (λ index. Indexes index []) }
    {
        Ok(Index {
            places: IndexMap::with_capacity(alloc, count)?,
        })
    }

    /// The index of these names. A name that stands more than once has its first place.
    pub fn of(alloc: Global, names: &[Name]) -> Result<Index, NoMemory>
        ensures { IfOk result (λ index. Indexes index names.now) }
    {
        let mut index = Index::with_room(alloc, names.len())?;
        for (i, name) in names.iter().enumerate() {
            index.add(alloc, name.bytes(), i)?;
        }
        Ok(index)
    }

    /// Puts a name behind the `place` names that the index has, unless it is among them. Answers
    /// whether it is new. After a refusal the index is as before.
    pub fn add(&mut self, alloc: Global, name: &[u8], place: usize) -> Result<bool, NoMemory>
        ensures added { (names : List (List ℕ)) → Indexes self.old names → place ≡ length names → OnOk result (Indexes self.new (names ++ name.now ∷ [])) }
        ensures fresh { IfOk result (λ fresh. fresh ≡ not (is_some (first_place self.old name.now))) }
        ensures refused { OnErr result ((q : List ℕ) → first_place self.new q ≡ first_place self.old q) }
    {
        let fresh = put_first(&mut self.places, Name::of(alloc, name)?, place)?;
        Ok(fresh)
    }

    /// The first place of a name, None exactly where the name is absent. Takes no memory.
    pub fn find(&self, name: &[u8]) -> Option<usize>
        ensures { result ≡ first_place self.now name.now }
    {
        self.places.get(name).copied()
    }
}
