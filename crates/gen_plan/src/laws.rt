// What holds of every module that counts by the plan, the clauses of a function that does nothing.
ghost use Rattle.std.specs.Prelude.{◌≡◌, ℕ, ◌≤◌, Bool, List, [], ◌∷◌, Some, count_by, slice_get};
ghost use Rattle.count_likeness.specs.Image.{MarksAre};
ghost use Rattle.count_plan.specs.Counted.{counted_pieces};
ghost use Rattle.gen_plan.specs.Countable.{CanCount};
ghost use Rattle.gen_plan.specs.Gen.{counted, gen_function};
ghost use Rattle.gen_plan.specs.GenImage.{gen_image};
ghost use Rattle.ir_likeness.specs.Like.{AreLike};
ghost use Rattle.ir_tree.specs.Blocks.{labels};
ghost use Rattle.ir_tree.specs.Edges.{rows};
ghost use Rattle.ir_tree.specs.Graphs.{HasGraph};
ghost use Rattle.ir_tree.specs.Names.{same};
ghost use Rattle.ir_tree.specs.Reach.{IsReachable};
ghost use Rattle.ir_tree.specs.declared.types.Block.{Block};
ghost use Rattle.ir_tree.specs.declared.types.Function.{Function};
ghost use Rattle.ir_tree.specs.declared.types.Module.{Module};

use cfg_edges::graphs_stand;
use count_likeness::counting_behaves;
use count_plan::blocks_stay;

/// The module that counts behaves as the original, within four steps for one and one more. For every call that returns its marks
/// are the log of the original: the counter of each counted edge by its rank among these, those of the selects behind them with
/// the conditions that the selects saw, and the target of each call through a register at its site. In both modes.
pub fn gen_counts()
    ensures alike { (entry_first : Bool) (m : Module) → CanCount m → AreLike m (counted entry_first m) 4 1 }
    ensures marks { (entry_first : Bool) (m : Module) → CanCount m → MarksAre (gen_image entry_first m) m (counted entry_first m) 4 1 }
{
    graphs_stand();
    counting_behaves();
}

/// In the function that counts a block that no walk leads to stays as it is, with no new block behind it.
pub fn unreachable_blocks_stay()
    ensures { (entry_first : Bool) (f : Function) → HasGraph f → ((l : List ℕ) → count_by (same l) (labels f.blocks) ≤ 1) → (j : ℕ) (b : Block) → slice_get f.blocks j ≡ Some b → ¬ IsReachable (rows f.blocks) j → counted_pieces (gen_function entry_first f) f.blocks j b ≡ b ∷ [] }
{
    blocks_stay();
    graphs_stand();
}
