// Places in a function.
ghost use Rattle.std.specs.Prelude.{◌≡◌, ◌<◌};
ghost use Rattle.ir_rules.specs.Parts as parts;

use ir_rules::Place;

/// Item i of block b of function k.
pub(crate) fn place(k: u32, b: usize, i: usize) -> Place
    requires few { b < 4294967296 }
    ensures { result ≡ parts.place k b i }
{
    Place {
        function: k,
        block: b as u32,
        item: i as u64,
    }
}
