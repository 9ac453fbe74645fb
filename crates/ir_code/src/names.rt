// Names with their numbers.
ghost use Rattle.std.specs.Prelude.{◌≡◌, ℕ, List, [], ◌++◌, ◌∷◌, OnOk};
ghost use Rattle.ir_code.specs.Names.{number_in, AreNumbered};

use ir_tree::{Index, Name};
use pgo_base::NoMemory;
use std::alloc::Global;

/// Names, numbered from 0 on in their order. A name that stands more than once has its first number,
/// and is found without a scan.
#[derive(Drop)]
pub struct Numbers {
    index: Index,
    count: usize,
}

impl Numbers {
    /// No names.
    pub fn new(alloc: Global) -> Numbers
        ensures { AreNumbered result [] }
    {
        Numbers {
            index: Index::new(alloc),
            count: 0,
        }
    }

    /// Puts a name behind the others.
    pub fn add(&mut self, alloc: Global, name: &Name) -> Result<(), NoMemory>
        ensures { (names : List (List ℕ)) → AreNumbered self.old names → OnOk result (AreNumbered self.new (names ++ name.now ∷ [])) }
    {
        if self.count == usize::MAX {
            // No memory holds so many names.
            return Err(NoMemory);
        }
        self.index.add(alloc, name.bytes(), self.count)?;
        self.count += 1;
        Ok(())
    }

    /// The index of the names' numbers.
    pub fn index(self) -> Index
        ensures { result ≡ self.index }
    {
        let Numbers { index, count: _ } = self;
        index
    }

    /// How many names there are.
    pub fn count(&self) -> usize
        ensures { result ≡ self.now.count }
    {
        self.count
    }

    /// The number of a name, and the number of all names where it is not among them.
    pub fn number(&self, name: &Name) -> usize
        ensures { result ≡ number_in self.now name.now }
    {
        self.index.find(name.bytes()).unwrap_or(self.count)
    }
}
