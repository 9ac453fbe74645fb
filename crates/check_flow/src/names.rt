// Blocks by their labels.
ghost use Rattle.std.specs.Prelude.{◌≡◌};
ghost use Rattle.check_flow.specs.LookUps as spec;
ghost use Rattle.ir_rules.specs.Finding.{kind_label};

use ir_tree::{FunctionIndex, Local, LocalKind, Name};

/// The number of the block with this label.
pub(crate) fn block_of(known: &FunctionIndex, label: &Name) -> Option<usize>
    ensures { result ≡ spec.block_of known.now label.now }
{
    match known.find(label.bytes()) {
        Some(local) => labelled(local),
        None => None,
    }
}

fn labelled(local: Local) -> Option<usize>
    ensures { result ≡ kind_label local.kind local.block }
{
    match local.kind {
        LocalKind::Label => Some(local.block),
        LocalKind::Param(_) | LocalKind::Result(_) => None,
    }
}
