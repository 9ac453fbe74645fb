// What holds of every lowered module, the clauses of a function that does nothing.
ghost use Rattle.std.specs.Prelude.{◌≡◌, ℕ};
ghost use Rattle.ir_likeness.specs.Like.{AreLike};
ghost use Rattle.ir_model.specs.Run.{IsValidCall, run_of};
ghost use Rattle.ir_model.specs.declared.result.Call.{Call};
ghost use Rattle.ir_tree.specs.declared.types.Module.{Module};
ghost use Rattle.lowering.specs.Lowered.{lowered};

/// The lowered module runs as the module, step by step: each run shows the same, the rise of counters and the noted targets among
/// it, and ends in the same way. A call that is valid is so in the lowered module too.
pub fn lowering_runs()
    ensures same { (m : Module) (c : Call) (n : ℕ) → run_of (lowered m) c n ≡ run_of m c n }
    ensures valid { (m : Module) (c : Call) → IsValidCall m c → IsValidCall (lowered m) c }
    ensures alike { (m : Module) → AreLike m (lowered m) 1 0 }
{}
