// What holds of modules whose blocks stand in another order, the clauses of a function that does nothing.
ghost use Rattle.std.specs.Prelude.{◌≡◌, ℕ};
ghost use Rattle.block_order.specs.Reordered.{AreReordered};
ghost use Rattle.ir_likeness.specs.Like.{signature_at};
ghost use Rattle.ir_model.specs.Run.{run_of};
ghost use Rattle.ir_model.specs.declared.result.Call.{Call};
ghost use Rattle.ir_tree.specs.declared.types.Module.{Module};

/// Where the functions of two modules have the same first blocks and the same block under each label, every call has the same run
/// in both: step by step it shows the same and ends the same. The functions have the same signatures.
pub fn order_is_free()
    ensures runs { (m m' : Module) → AreReordered m m' → (c : Call) (n : ℕ) → run_of m' c n ≡ run_of m c n }
    ensures signatures { (m m' : Module) → AreReordered m m' → (k : ℕ) → signature_at m' k ≡ signature_at m k }
{}
