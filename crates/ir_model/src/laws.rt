// Laws of runs, each the clause of a function that does nothing.
ghost use Rattle.std.specs.Prelude.{◌≡◌, ℕ, ◌+◌, ◌≤◌, List, Some, length};
ghost use Rattle.std.specs.List.{count_by};
ghost use Rattle.ir_tree.specs.declared.types.Module.{Module};
ghost use Rattle.ir_model.specs.declared.result.Call.{Call};
ghost use Rattle.spec_machines.specs.Machine.{Within, shown_of};
ghost use Rattle.ir_model.specs.State.{printed};
ghost use Rattle.ir_model.specs.Step.{output_most};
ghost use Rattle.ir_model.specs.Run.{run_of};
ghost use Rattle.ir_model.specs.Log.{log_of, leads_to, AreBalanced, HasReturned};
ghost use Rattle.ir_model.specs.Selects.{IsSelectAt, falses, trues};

/// A run of more steps goes on from one of fewer: a call that ended stays as it ended, and one that
/// is open has printed a first part of what it prints.
pub fn more_steps_go_on()
    ensures { (m : Module) (c : Call) (n k : ℕ) → Within (run_of m c n) (run_of m c (n + k)) }
{}

/// No call prints more bytes than the limit.
pub fn output_is_bounded()
    ensures { (m : Module) (c : Call) (n : ℕ) → length (printed (shown_of (run_of m c n))) ≤ output_most }
{}

/// The walks of a call that returns are a flow: in each function as many walks lead to a block as come
/// from it, and as many lead into the function as out of it.
pub fn walks_are_a_flow()
    ensures { (m : Module) (c : Call) (n : ℕ) → HasReturned (run_of m c n) → AreBalanced m (log_of (run_of m c n)) }
{}

/// In a call that returns, a select sees its condition true or false once for each walk that leads to its block.
pub fn selects_are_seen()
    ensures { (m : Module) (c : Call) (n k : ℕ) (l : List ℕ) (i : ℕ) → IsSelectAt m k l i → HasReturned (run_of m c n) → trues k l i (shown_of (run_of m c n)) + falses k l i (shown_of (run_of m c n)) ≡ count_by (leads_to m k (Some l)) (log_of (run_of m c n)) }
{}
