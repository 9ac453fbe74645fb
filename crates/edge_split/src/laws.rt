// What holds of every function with a block on one of its edges, the clauses of a function that does nothing.
ghost use Rattle.std.specs.Prelude.{◌≡◌, ℕ, suc, List, Some, count_by, slice_get};
ghost use Rattle.count_likeness.specs.Formed.{AreFormed};
ghost use Rattle.edge_split.specs.Split.{MarksStay, split, split_before, with_function};
ghost use Rattle.ir_likeness.specs.Like.{AreLike};
ghost use Rattle.ir_tree.specs.Blocks.{labels};
ghost use Rattle.ir_tree.specs.Names.{same};
ghost use Rattle.ir_tree.specs.declared.types.Function.{Function};
ghost use Rattle.ir_tree.specs.declared.types.Module.{Module};

use block_order::order_is_free;
use count_likeness::{counting_behaves, made_labels_are_distinct};
use count_plan::blocks_stay;

/// A new block on the edge of a block and a successor position, at any place behind the first block, keeps the behaviour of each module
/// that has the function, within twice as many steps, and its marks. The label is any that no block of the function has.
pub fn split_behaves()
    ensures alike { (m : Module) (j a p : ℕ) (new : List ℕ) (f : Function) → AreFormed m → slice_get m.functions j ≡ Some f → count_by (same new) (labels f.blocks) ≡ 0 → AreLike m (with_function m j (split a p new f)) 2 0 }
    ensures marks { (m : Module) (j a p : ℕ) (new : List ℕ) (f : Function) → AreFormed m → slice_get m.functions j ≡ Some f → count_by (same new) (labels f.blocks) ≡ 0 → MarksStay m (with_function m j (split a p new f)) 2 0 }
    ensures anywhere { (m : Module) (j a p place : ℕ) (new : List ℕ) (f : Function) → AreFormed m → slice_get m.functions j ≡ Some f → count_by (same new) (labels f.blocks) ≡ 0 → AreLike m (with_function m j (split_before (suc place) a p new f)) 2 0 }
    ensures marks_anywhere { (m : Module) (j a p place : ℕ) (new : List ℕ) (f : Function) → AreFormed m → slice_get m.functions j ≡ Some f → count_by (same new) (labels f.blocks) ≡ 0 → MarksStay m (with_function m j (split_before (suc place) a p new f)) 2 0 }
{
    blocks_stay();
    counting_behaves();
    made_labels_are_distinct();
    order_is_free();
}
