// The names that were seen so far in a function.
ghost use Rattle.std.specs.Prelude.{◌≡◌, ◌≤◌, ℕ, List, [], ◌∷◌, ◌++◌, IfOk, OnOk};
ghost use Rattle.check_names.specs.Seen.{HasSeen};
ghost use Rattle.ir_rules.specs.Lists.{is_new};

use ir_tree::Index;
use pgo_base::NoMemory;
use std::alloc::Global;

/// Names in an index, and how many there are.
#[derive(Drop)]
pub(crate) struct Seen {
    pub(crate) index: Index,
    pub(crate) count: usize,
}

impl Seen {
    /// No names.
    pub(crate) fn new(alloc: Global) -> Seen
        ensures { HasSeen result [] }
    {
        Seen {
            index: Index::new(alloc),
            count: 0,
        }
    }

    /// No names, with room for so many.
    pub(crate) fn with_room(alloc: Global, count: usize) -> Result<Seen, NoMemory>
        ensures { IfOk result (λ seen. HasSeen seen []) }
    {
        let index = Index::with_room(alloc, count)?;
        Ok(Seen { index, count: 0 })
    }

    /// Puts a name behind those that were seen, and answers whether it is none of them.
    pub(crate) fn add(&mut self, alloc: Global, name: &[u8]) -> Result<bool, NoMemory>
        requires room { self.old.count ≤ 2101248 }
        ensures added { (names : List (List ℕ)) → HasSeen self.old names → OnOk result (HasSeen self.new (names ++ name.now ∷ [])) }
        ensures fresh { (names : List (List ℕ)) → HasSeen self.old names → IfOk result (λ fresh. fresh ≡ is_new name.now names) }
    {
        let fresh = self.index.add(alloc, name, self.count)?;
        self.count += 1;
        Ok(fresh)
    }
}
