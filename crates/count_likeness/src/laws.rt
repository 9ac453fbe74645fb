// What holds of every module that counts, the clauses of a function that does nothing.
ghost use Rattle.std.specs.Prelude.{ℕ, ◌+◌, ◌≤◌, List, count_by};
ghost use Rattle.count_likeness.specs.Fits.{ModuleFits, new_labels};
ghost use Rattle.count_likeness.specs.Image.{Image, MarksAre};
ghost use Rattle.count_plan.specs.Counted.{counted_function, counted_module};
ghost use Rattle.count_plan.specs.declared.plan.FunctionPlan.{FunctionPlan};
ghost use Rattle.count_plan.specs.declared.plan.ModulePlan.{ModulePlan};
ghost use Rattle.ir_likeness.specs.Like.{AreLike};
ghost use Rattle.ir_tree.specs.Blocks.{labels};
ghost use Rattle.ir_tree.specs.Names.{same};
ghost use Rattle.ir_tree.specs.declared.types.Function.{Function};
ghost use Rattle.ir_tree.specs.declared.types.Module.{Module};

/// Where a plan fits a module, the module that is made from it behaves as the original within the steps that the plan leaves, and
/// in each call that returns its marks are what the image makes of what the original shows. Any plan: that of every counter
/// outside a spanning tree, or one new block on one edge.
pub fn counting_behaves()
    ensures alike { (plan : ModulePlan) (image : Image) (most late : ℕ) (m : Module) → ModuleFits plan image most late m → AreLike m (counted_module plan m) most late }
    ensures marks { (plan : ModulePlan) (image : Image) (most late : ℕ) (m : Module) → ModuleFits plan image most late m → MarksAre image m (counted_module plan m) most late }
{}

/// Where the labels of a function and those of the new blocks are distinct, so are those of the function that is made.
pub fn made_labels_are_distinct()
    ensures { (unit : FunctionPlan) (f : Function) → ((l : List ℕ) → count_by (same l) (labels f.blocks) + count_by (same l) (new_labels unit) ≤ 1) → (l : List ℕ) → count_by (same l) (labels (counted_function unit f).blocks) ≤ 1 }
{}
