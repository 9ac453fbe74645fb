// Functions by their names.
ghost use Rattle.std.specs.Prelude.{◌≡◌, codes};
ghost use Rattle.ir_tree.specs.Names.{same};
ghost use Rattle.ir_tree.specs.Functions as spec;

use crate::types::Function;

impl Function {
    /// Whether the function is declared: it has no blocks.
    pub fn is_declared(&self) -> bool
        ensures { result ≡ spec.is_declared self.now }
    {
        self.blocks.as_slice().is_empty()
    }
}

/// Whether the name is that of the function that prints a number of 64 bits and a line feed.
#[tactic(auto, unfolding(crate::specs::Functions::print_name))]
pub fn is_print_name(name: &[u8]) -> bool
    ensures { result ≡ same spec.print_name name.now }
{
    b"print_i64".as_slice() == name
}

/// Whether the name is that of a function of the profile runtime, or of an intrinsic of
/// instrumentation; such a function has no number.
#[tactic(auto, unfolding(crate::specs::Functions::is_profile_name))]
pub fn is_profile_name(name: &[u8]) -> bool
    ensures { result ≡ spec.is_profile_name name.now }
{
    begins_with(b"llvm.instrprof.".as_slice(), name)
        || begins_with(b"__llvm_profile_".as_slice(), name)
}

fn begins_with(front: &[u8], name: &[u8]) -> bool
    ensures { result ≡ spec.begins_with front.now name.now }
{
    let most = front.len().min(name.len());
    front == &name[..most]
}
