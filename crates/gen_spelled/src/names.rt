// The names of functions in memory.
ghost use Rattle.gen_spelled.specs.GenSpelled.{HaveShortNames};

use ir_tree::Function;

/// The names of functions in memory have fewer than 2^64 bytes each, which is what `gen_is_spelled` asks of a module. The call goes over
/// the functions once, and takes no memory.
pub fn names_are_short(functions: &[Function])
    ensures { HaveShortNames functions.now }
{
    for function in functions {
        let _length = function.name.bytes().len();
    }
}
