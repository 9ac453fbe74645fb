// Two functions, by hand; the hashes are those of another program, and that memory suffices is shown here
// alone.
ghost use Rattle.std.specs.Prelude.{◌≡◌, [], ◌∷◌, None, IfOk, codes};
ghost use Rattle.cfg_edges.specs.Examples as spec;
ghost use Rattle.ir_tree.specs.Blocks as blocks;
ghost use Rattle.ir_tree.specs.Graphs.{HasGraph};
ghost use Rattle.ir_tree.specs.declared.types.Term.TheVariants as term;

use crate::{Edge, Graph, function_hash, rows_of};
use ir_tree::{Block, Function, Instr, Name, Operand, Ret, Seq, Term, Ty};
use itoa::Buffer;
use pgo_base::NoMemory;
use std::alloc::Global;
use std::test::Fail;

fn name(alloc: Global, bytes: &[u8]) -> Result<Name, NoMemory>
    ensures { IfOk result (λ n. n ≡ bytes.now) }
{
    Name::of(alloc, bytes)
}

fn block_with(
    alloc: Global,
    label: &[u8],
    instrs: Vec<Instr>,
    term: Term,
) -> Result<Block, NoMemory>
    ensures { IfOk result (λ b. b ≡ blocks.block_with label.now instrs.items term) }
{
    Ok(Block {
        label: name(alloc, label)?,
        instrs: Seq::of(instrs),
        term,
    })
}

fn block(alloc: Global, label: &[u8], term: Term) -> Result<Block, NoMemory>
    ensures { IfOk result (λ b. b ≡ spec.block label.now term) }
{
    block_with(alloc, label, Vec::new(alloc), term)
}

#[tactic(auto, unfolding(crate::specs::Examples::entry_block))]
fn entry_block(alloc: Global) -> Result<Block, NoMemory>
    ensures { IfOk result (λ b. b ≡ spec.entry_block) }
{
    let to = name(alloc, b"head".as_slice())?;
    block(alloc, b"entry".as_slice(), Term::Br { to })
}

#[tactic(auto, unfolding(crate::specs::Examples::head_block))]
fn head_block(alloc: Global) -> Result<Block, NoMemory>
    ensures { IfOk result (λ b. b ≡ spec.head_block) }
{
    let choice = Term::CondBr {
        cond: Operand::Local(name(alloc, b"c".as_slice())?),
        yes: name(alloc, b"body".as_slice())?,
        no: name(alloc, b"done".as_slice())?,
        prof: None,
    };
    block(alloc, b"head".as_slice(), choice)
}

#[tactic(auto, unfolding(crate::specs::Examples::body_block))]
fn body_block(alloc: Global) -> Result<Block, NoMemory>
    ensures { IfOk result (λ b. b ≡ spec.body_block) }
{
    let to = name(alloc, b"head".as_slice())?;
    block(alloc, b"body".as_slice(), Term::Br { to })
}

#[tactic(auto, unfolding(crate::specs::Examples::done_block))]
fn done_block(alloc: Global) -> Result<Block, NoMemory>
    ensures { IfOk result (λ b. b ≡ spec.done_block) }
{
    block(alloc, b"done".as_slice(), Term::Ret { value: None })
}

fn looping(alloc: Global) -> Result<Vec<Block>, NoMemory>
    ensures { IfOk result (λ blocks. blocks.items ≡ spec.looping) }
{
    let entry = entry_block(alloc)?;
    let head = head_block(alloc)?;
    let body = body_block(alloc)?;
    let done = done_block(alloc)?;
    let mut blocks = Vec::new(alloc);
    blocks.push(entry)?;
    blocks.push(head)?;
    blocks.push(body)?;
    blocks.push(done)?;
    Ok(blocks)
}

fn function(alloc: Global, blocks: Vec<Block>) -> Result<Function, NoMemory>
    ensures { IfOk result (λ f. f.blocks ≡ blocks.items) }
{
    Ok(Function {
        name: name(alloc, b"f".as_slice())?,
        ret: Ret::Void,
        params: Seq::of(Vec::new(alloc)),
        blocks: Seq::of(blocks),
        prof: None,
    })
}

fn looping_function(alloc: Global) -> Result<Function, NoMemory>
    ensures { IfOk result HasGraph }
{
    let blocks = looping(alloc)?;
    function(alloc, blocks)
}

fn leaving(block: u32, position: u32, from: u32, to: u32) -> Edge {
    Edge {
        from,
        to,
        block: Some(block),
        position,
    }
}

#[tactic(auto, unfolding(crate::specs::Examples::choosing))]
fn choosing(alloc: Global) -> Result<Instr, NoMemory>
    ensures { IfOk result (λ i. i ≡ spec.choosing) }
{
    Ok(Instr::Select {
        dest: name(alloc, b"x".as_slice())?,
        cond: Operand::Int(1),
        ty: Ty::I64,
        yes: Operand::Int(4),
        no: Operand::Int(9),
        prof: None,
    })
}

#[tactic(auto, unfolding(crate::specs::Examples::calling))]
fn calling(alloc: Global) -> Result<Instr, NoMemory>
    ensures { IfOk result (λ i. i ≡ spec.calling) }
{
    Ok(Instr::Call {
        dest: None,
        ret: Ret::Void,
        callee: Operand::Local(name(alloc, b"p".as_slice())?),
        args: Seq::new(alloc),
        prof: None,
    })
}

fn reachable_block(alloc: Global) -> Result<Block, NoMemory>
    ensures { IfOk result (λ b. b ≡ blocks.block_with (codes "entry") (spec.choosing ∷ []) (term.Ret None)) }
{
    let mut instrs = Vec::new(alloc);
    instrs.push(choosing(alloc)?)?;
    block_with(
        alloc,
        b"entry".as_slice(),
        instrs,
        Term::Ret { value: None },
    )
}

fn lost_block(alloc: Global) -> Result<Block, NoMemory>
    ensures { IfOk result (λ b. b ≡ blocks.block_with (codes "lost") (spec.calling ∷ spec.choosing ∷ []) (term.Br (codes "lost"))) }
{
    let mut instrs = Vec::new(alloc);
    instrs.push(calling(alloc)?)?;
    instrs.push(choosing(alloc)?)?;
    let to = name(alloc, b"lost".as_slice())?;
    block_with(alloc, b"lost".as_slice(), instrs, Term::Br { to })
}

#[tactic(auto, unfolding(crate::specs::Examples::selecting))]
fn selecting(alloc: Global) -> Result<Vec<Block>, NoMemory>
    ensures { IfOk result (λ blocks. blocks.items ≡ spec.selecting) }
{
    let mut blocks = Vec::new(alloc);
    blocks.push(reachable_block(alloc)?)?;
    blocks.push(lost_block(alloc)?)?;
    Ok(blocks)
}

fn selecting_function(alloc: Global) -> Result<Function, NoMemory>
    ensures { IfOk result HasGraph }
{
    let blocks = selecting(alloc)?;
    function(alloc, blocks)
}

#[test]
fn a_loop_has_five_nodes_and_six_edges(rt: HostRuntime) -> Result<(), Fail> {
    let alloc = rt.alloc();
    let function = looping_function(alloc)?;
    let graph = Graph::of(alloc, &function)?;
    let entry = Edge {
        from: 0,
        to: 1,
        block: None,
        position: 0,
    };
    let expected = [
        entry,
        leaving(0, 0, 1, 2),
        leaving(1, 0, 2, 3),
        leaving(1, 1, 2, 4),
        leaving(2, 0, 3, 2),
        leaving(3, 0, 4, 0),
    ];
    assert_eq!(rt; graph.nodes(), 5);
    assert_eq!(rt; graph.edges(), expected.as_slice());
    assert_eq!(rt; graph.block_of(0), None);
    assert_eq!(rt; graph.block_of(2), Some(1));
    assert_eq!(rt; graph.block_of(5), None);
    // MD5 of "5 6 0 1 1 2 2 3 2 4 3 2 4 0 2 0 0", and of that with " 1" at its end
    assert_eq!(rt;
        function_hash(alloc, &graph, 2, false)?,
        17_059_283_879_637_794_014
    );
    assert_eq!(rt;
        function_hash(alloc, &graph, 2, true)?,
        8_800_037_394_803_806_888
    );
    Ok(())
}

#[test]
fn what_a_block_has_that_nothing_leads_to_is_left_out(rt: HostRuntime) -> Result<(), Fail> {
    let alloc = rt.alloc();
    let function = selecting_function(alloc)?;
    let graph = Graph::of(alloc, &function)?;
    assert_eq!(rt; graph.nodes(), 2);
    assert_eq!(rt; graph.edges().len(), 2);
    assert!(rt; graph.sites().is_empty());
    assert_eq!(rt; graph.selects(), [(0, 0)].as_slice());
    // MD5 of "2 2 0 1 1 0 2 0 1"
    assert_eq!(rt;
        function_hash(alloc, &graph, 2, false)?,
        9_582_453_768_143_320_800
    );
    Ok(())
}

fn numbered(alloc: Global, number: u32) -> Result<Name, NoMemory> {
    name(alloc, Buffer::new().format(number).as_bytes())
}

// So many blocks, of which each leads to the next, and one more, which leads back to the fourth.
fn chain(alloc: Global, count: u32) -> Result<Vec<Block>, NoMemory> {
    let mut blocks = Vec::new(alloc);
    for number in 0..count {
        let label = numbered(alloc, number)?;
        let to = numbered(alloc, number + 1)?;
        blocks.push(block(alloc, label.bytes(), Term::Br { to })?)?;
    }
    let label = numbered(alloc, count)?;
    let to = numbered(alloc, 3)?;
    blocks.push(block(alloc, label.bytes(), Term::Br { to })?)?;
    Ok(blocks)
}

#[test]
fn labels_of_many_blocks_are_found(rt: HostRuntime) -> Result<(), Fail> {
    let alloc = rt.alloc();
    let blocks = chain(alloc, 10_000)?;
    assert_eq!(rt; blocks.len(), 10_001);
    let rows = rows_of(alloc, blocks.as_slice())?;
    assert_eq!(rt; rows.len(), 10_001);
    assert_eq!(rt; rows.row(0), [1].as_slice());
    assert_eq!(rt; rows.row(9_999), [10_000].as_slice());
    assert_eq!(rt; rows.row(10_000), [3].as_slice());
    Ok(())
}
