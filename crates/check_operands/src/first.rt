// The first rule on operands, calls, returns and weights that a function breaks.
ghost use Rattle.std.specs.Prelude.{◌≡◌, ◌<◌, ◌≤◌, ◌++◌, ℕ, List, length, option_map};
ghost use Rattle.check_operands.specs.Broken.{first_broken, lower};
ghost use Rattle.check_operands.specs.Found.{Knows};
ghost use Rattle.ir_rules.specs.Finding.{IsNamed};
ghost use Rattle.ir_rules.specs.Kinds as kinds;
ghost use Rattle.ir_rules.specs.Lists.{times};
ghost use Rattle.ir_rules.specs.Parts.{block_places, function_places, place, unless};
ghost use Rattle.ir_rules.specs.Scopes as scopes;
ghost use Rattle.ir_tree.specs.FunctionNames.{IsIndexOf};
ghost use Rattle.ir_tree.specs.Names.{Indexes};
ghost use Rattle.rule_groups.specs.Groups.{broken_in, operand_rules};
ghost use Rattle.spec_lists.specs.Each.{each, first_of};

use crate::items::{exit_breaks, head_breaks, item_breaks};
use crate::scope::Scope;
use ir_rules::{Kind, Place, look_ups_tell};
use ir_tree::{Block, Function, FunctionIndex, Index, Module};

/// The first of rules 11 to 15 that function `k` of a module breaks, by its number, with its first place in text order. `symbols` are
/// the names of the module's global variables and then its functions.
pub fn first_in_operands(
    known: &FunctionIndex,
    symbols: &Index,
    kind: Kind,
    module: &Module,
    k: u32,
    f: &Function,
) -> Option<(u8, Place)>
    requires known { IsIndexOf known.now f.now }
    requires named { IsNamed f.now }
    requires few { length f.now.blocks < 4294967296 }
    requires symbols { Indexes symbols.now (scopes.symbols «module».now) }
    requires once { (n : List ℕ) → times n (scopes.symbols «module».now) ≤ 1 }
    requires kind { kind ≡ kinds.kind_of «module».now.functions }
    ensures { result ≡ first_of (broken_in k f.now 11 (operand_rules «module».now)) }
{
    look_ups_tell();
    let scope = Scope {
        known,
        symbols,
        kind,
        module,
        function: f,
    };
    in_function(&scope, k)
}

fn in_function(scope: &Scope, k: u32) -> Option<(u8, Place)>
    requires knows { Knows scope.now }
    requires few { length scope.now.function.now.blocks < 4294967296 }
    ensures { result ≡ first_broken scope.now.module.now (λ r. function_places r k scope.now.function.now) }
{
    let mut found = placed(head_breaks(scope.function), k, 0, 0);
    for (b, block) in scope.function.blocks.as_slice().iter().enumerate() {
        found = lower(found, in_block(scope, k, b as u32, block));
    }
    found
}

fn in_block(scope: &Scope, k: u32, b: u32, block: &Block) -> Option<(u8, Place)>
    requires { Knows scope.now }
    ensures { result ≡ first_broken scope.now.module.now (λ r. block_places r k scope.now.function.now b block.now) }
{
    let instrs = block.instrs.as_slice();
    let found = in_items(scope, k, b, block);
    lower(
        found,
        placed(exit_breaks(scope, &block.term), k, b, instrs.len()),
    )
}

// No rule of these speaks of labels.
fn in_items(scope: &Scope, k: u32, b: u32, block: &Block) -> Option<(u8, Place)>
    requires { Knows scope.now }
    ensures { result ≡ first_broken scope.now.module.now (λ r. unless (r.label scope.now.function.now b block.now) (place k b 0) ++ each (λ i x. unless (r.item scope.now.function.now b block.now i x) (place k b i)) 0 block.now.instrs) }
{
    let mut found = None;
    for (i, instr) in block.instrs.as_slice().iter().enumerate() {
        found = lower(found, placed(item_breaks(scope, instr), k, b, i));
    }
    found
}

fn placed(rule: Option<u8>, k: u32, b: u32, i: usize) -> Option<(u8, Place)>
    ensures { result ≡ option_map (λ n. (n, place k b i)) rule }
{
    match rule {
        Some(number) => Some((
            number,
            Place {
                function: k,
                block: b,
                item: i as u64,
            },
        )),
        None => None,
    }
}

// The fault of the lower rule, the earlier one where both are of one rule.
fn lower(earlier: Option<(u8, Place)>, later: Option<(u8, Place)>) -> Option<(u8, Place)>
    ensures { result ≡ lower earlier later }
{
    match (earlier, later) {
        (None, later) => later,
        (Some(a), None) => Some(a),
        (Some(a), Some(b)) => { if b.0 < a.0 { Some(b) } else { Some(a) } }
    }
}
