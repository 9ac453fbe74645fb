// Names of globals, functions, parameters, blocks and results.
ghost use Rattle.std.specs.Prelude.{◌≡◌, ◌≤◌, [], IfOk, length, take};

use pgo_base::NoMemory;
use std::alloc::Global;
use std::marker::Model;

// The most bytes of a name that takes no memory of its own; 14 make a `Name` 16 bytes long.
const SHORT_MOST: usize = 14;

#[derive(Debug, Drop)]
struct Short {
    len: u8,
    bytes: [u8; SHORT_MOST],
    ghost fits: { len ≤ 14 },
}

#[derive(Debug, Drop)]
enum Held {
    Inline(Short),
    Heap(Box<Vec<u8>>),
}

/// The name of a global, function, parameter, block or result, without its `@` or `%` and
/// without quotes. Contracts see it as the list of its bytes. Up to 14 bytes need no allocation.
#[derive(Debug, Drop)]
pub struct Name {
    held: Held,
}

impl Model for Name {
    ghost use Rattle.std.specs.Prelude.{ℕ, List};
    ghost use Rattle.std.specs.Coded.{coded_list, coded_ℕ};

    ghost Value = { List ℕ };

    ghost coded = { coded_list coded_ℕ };

    ghost use Rattle.ir_tree.specs.Held.{held_bytes};

    ghost view = { λ n. held_bytes n.held };
}

// The first bytes of an array, and no others.
fn make_short(bytes: &[u8]) -> Short
    requires { length bytes.now ≤ 14 }
    ensures { take result.len result.bytes ≡ bytes.now }
{
    let mut held = [0u8; SHORT_MOST];
    held[..bytes.len()].copy_from_slice(bytes);
    Short {
        len: bytes.len() as u8,
        bytes: held,
    }
}

/// The empty name.
impl Default for Name {
    ghost is_default = { λ n. n ≡ [] };

    fn default() -> Name {
        Name {
            held: Held::Inline(make_short(&[])),
        }
    }
}

impl Name {
    /// The name with these bytes.
    pub fn of(alloc: Global, bytes: &[u8]) -> Result<Name, NoMemory>
        ensures { IfOk result (λ n. n ≡ bytes.now) }
    {
        if bytes.len() <= SHORT_MOST {
            return Ok(Name {
                held: Held::Inline(make_short(bytes)),
            });
        }
        let bytes = Vec::from_slice(alloc, bytes)?;
        Ok(Name {
            held: Held::Heap(Box::new(alloc, bytes)?),
        })
    }

    /// An equal name.
    pub fn copy(&self, alloc: Global) -> Result<Name, NoMemory>
        ensures { IfOk result (λ n. n ≡ self.now) }
    {
        Name::of(alloc, self.bytes())
    }

    /// The bytes of the name.
    pub fn bytes(&self) -> &[u8]
        ensures { result.now ≡ self.now }
    {
        match &self.held {
            Held::Inline(short) => &short.bytes[..short.len as usize],
            Held::Heap(bytes) => bytes.as_slice(),
        }
    }
}
