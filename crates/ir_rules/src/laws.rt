// What the rules come to together.
ghost use Rattle.std.specs.Prelude.{◌≡◌, ◌↔◌, []};
ghost use Rattle.ir_rules.specs.Accepted.{AcceptedAreSmall, EdgesHaveEntries, FunctionsHaveGraphs, FunctionsHaveNumbers, PlainAreSmall};
ghost use Rattle.ir_rules.specs.AllRules.{all_broken};
ghost use Rattle.ir_rules.specs.Finding.{GiversDecide, LookUpsTell, RegistersAreFound};
ghost use Rattle.ir_rules.specs.Resolved.{KeptAreResolved};
ghost use Rattle.ir_rules.specs.WellFormed.{IsWellFormed};
ghost use Rattle.ir_tree.specs.declared.types.Module.{Module};

use block_search::reached_are_marks;

/// A module breaks no rule exactly where it is well formed.
pub fn well_formed_breaks_none()
    ensures { (m : Module) → (all_broken m ≡ []) ↔ IsWellFormed m }
{
    reached_are_marks();
}

/// Each defined function of an accepted module has an edge graph.
pub fn functions_have_graphs()
    ensures { FunctionsHaveGraphs }
{}

/// An accepted module has at most 65,540 functions, 65,536 calls through a local, and in all 137,447,342,080 edges; a plain one at
/// most 65,536 functions and in all 1,048,576 edges.
pub fn accepted_are_small()
    ensures any { AcceptedAreSmall }
    ensures plain { PlainAreSmall }
{}

/// In an accepted plain module each function has its place as its number, since none is a function of the profile runtime.
pub fn functions_have_numbers()
    ensures { FunctionsHaveNumbers }
{}

/// In an accepted module each phi of a block has an entry for each block from which an edge leads to it.
pub fn edges_have_entries()
    ensures { EdgesHaveEntries }
{}

/// In a function whose names stand once the look-up of a name tells what the lists of names tell: which parameter, label or result it
/// is, and of what type; and the block that gives a result decides before which blocks it is assigned.
pub fn look_ups_tell()
    ensures names { LookUpsTell }
    ensures givers { GiversDecide }
    ensures registers { RegistersAreFound }
{}

/// Look-ups resolve the operands and entries of a defined function that keeps the rules on names, operands and entries of phis.
pub fn kept_are_resolved()
    ensures { KeptAreResolved }
{}
