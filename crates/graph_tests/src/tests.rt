// Functions read from text, and one made of blocks. Their trees, counters and counts are worked by hand, their hashes
// are those of another program.
ghost use Rattle.std.specs.Prelude.{◌≡◌, IfOk};
ghost use Rattle.graph_tests.specs.Switching as spec;
ghost use Rattle.ir_tree.specs.Graphs.{HasGraph};

use cfg_edges::{Graph, function_hash};
use cfg_tree::{grow, static_weights};
use flow_solve::{SolveError, solve};
use ir_check::{check, functions_have_graphs};
use ir_read::read;
use ir_tree::{Block, Function, Name, Operand, Ret, Seq, Term, Ty};
use pgo_base::NoMemory;
use std::alloc::Global;
use std::test::Fail;

const LOOP: &[u8] = b"define i64 @f(i64 %n) {
entry:
  br label %head
head:
  %i = phi i64 [ 0, %entry ], [ %j, %body ]
  %c = icmp slt i64 %i, %n
  br i1 %c, label %body, label %done
body:
  %k = phi i64 [ %i, %head ]
  %j = add i64 %k, 1
  br label %head
done:
  %r = phi i64 [ %i, %head ]
  ret i64 %r
}
";

const SINGLE: &[u8] = b"define i64 @s() {
entry:
  ret i64 0
}
";

const PARALLEL: &[u8] = b"define i64 @p(i64 %n) {
entry:
  %c = icmp slt i64 %n, 1
  br i1 %c, label %j, label %j
j:
  %x = phi i64 [ 7, %entry ], [ 7, %entry ]
  ret i64 %x
}
";

const DIAMOND: &[u8] = b"define i64 @g(i64 %n) {
entry:
  %c = icmp slt i64 %n, 1
  br i1 %c, label %a, label %b
a:
  br label %join
b:
  br label %join
join:
  ret i64 %n
}
";

const SPIN: &[u8] = b"define i64 @spin() {
entry:
  br label %a
a:
  br label %a
}
";

// The graph of the first function of a text.
fn graph_of(alloc: Global, text: &[u8]) -> Result<Graph, Fail> {
    functions_have_graphs();
    let checked = match check(alloc, read(alloc, text)?) {
        Ok(checked) => checked,
        Err(refused) => return Err(refused.why.into()),
    };
    let functions = checked.module().functions.as_slice();
    let function = functions.first().ok_or("no function")?;
    if function.blocks.is_empty() {
        return Err("declared".into());
    }
    Ok(Graph::of(alloc, function)?)
}

// A block that goes to `d` by its default and by three cases.
#[tactic(auto, unfolding(crate::specs::Switching::entry_block))]
fn entry_block(alloc: Global) -> Result<Block, NoMemory>
    ensures { IfOk result (λ b. b ≡ spec.entry_block) }
{
    let mut cases = Vec::new(alloc);
    cases.push((0, Name::of(alloc, b"d".as_slice())?))?;
    cases.push((1, Name::of(alloc, b"d".as_slice())?))?;
    cases.push((2, Name::of(alloc, b"d".as_slice())?))?;
    let term = Term::Switch {
        ty: Ty::I64,
        value: Operand::Local(Name::of(alloc, b"x".as_slice())?),
        default: Name::of(alloc, b"d".as_slice())?,
        cases: Seq::of(cases),
        prof: None,
    };
    Ok(Block {
        label: Name::of(alloc, b"entry".as_slice())?,
        instrs: Seq::of(Vec::new(alloc)),
        term,
    })
}

#[tactic(auto, unfolding(crate::specs::Switching::last_block))]
fn last_block(alloc: Global) -> Result<Block, NoMemory>
    ensures { IfOk result (λ b. b ≡ spec.last_block) }
{
    Ok(Block {
        label: Name::of(alloc, b"d".as_slice())?,
        instrs: Seq::of(Vec::new(alloc)),
        term: Term::Ret { value: None },
    })
}

fn switching(alloc: Global) -> Result<Vec<Block>, NoMemory>
    ensures { IfOk result (λ blocks. blocks.items ≡ spec.switching) }
{
    let mut blocks = Vec::new(alloc);
    blocks.push(entry_block(alloc)?)?;
    blocks.push(last_block(alloc)?)?;
    Ok(blocks)
}

fn function(alloc: Global, blocks: Vec<Block>) -> Result<Function, NoMemory>
    ensures { IfOk result (λ f. f.blocks ≡ blocks.items) }
{
    Ok(Function {
        name: Name::of(alloc, b"w".as_slice())?,
        ret: Ret::Void,
        params: Seq::of(Vec::new(alloc)),
        blocks: Seq::of(blocks),
        prof: None,
    })
}

fn switching_function(alloc: Global) -> Result<Function, NoMemory>
    ensures { IfOk result HasGraph }
{
    let blocks = switching(alloc)?;
    function(alloc, blocks)
}

// The counts of all edges from the counters of the counted ones, or why there are none.
fn counts(
    alloc: Global,
    graph: &Graph,
    entry_first: bool,
    counters: &[u64],
) -> Result<Result<Vec<u64>, SolveError>, Fail> {
    let tree = grow(alloc, graph, entry_first)?;
    if counters.len() != tree.counted.len() {
        return Err("another number of counters".into());
    }
    let mut work = vec![in alloc; 0; graph.edges().len()]?;
    let mut counts = vec![in alloc; 0; graph.edges().len()]?;
    let solved = solve(
        graph,
        &tree,
        counters,
        work.as_mut_slice(),
        counts.as_mut_slice(),
    );
    match solved {
        Ok(()) => Ok(Ok(counts)),
        Err(error) => Ok(Err(error)),
    }
}

#[test]
fn a_loop_keeps_two_counters(rt: HostRuntime) -> Result<(), Fail> {
    let alloc = rt.alloc();
    let graph = graph_of(alloc, LOOP)?;
    assert_eq!(rt; graph.nodes(), 5);
    let weights = static_weights(alloc, &graph, false)?;
    assert_eq!(rt; weights.as_slice(), [1, 2, 2, 2, 20, 1].as_slice());
    let tree = grow(alloc, &graph, false)?;
    assert_eq!(rt; tree.order.as_slice(), [0, 1, 4, 3].as_slice());
    assert_eq!(rt; tree.counted.as_slice(), [2, 5].as_slice());
    // MD5 of "5 6 0 1 1 2 2 3 2 4 3 2 4 0 2 0 0"
    assert_eq!(rt;
        function_hash(alloc, &graph, 2, false)?,
        17_059_283_879_637_794_014
    );
    let three = counts(alloc, &graph, false, [3, 1].as_slice())??;
    assert_eq!(rt; three.as_slice(), [1, 1, 3, 1, 3, 1].as_slice());
    let none = counts(alloc, &graph, false, [0, 1].as_slice())??;
    assert_eq!(rt; none.as_slice(), [1, 1, 0, 1, 0, 1].as_slice());
    let calls = counts(alloc, &graph, false, [8, 3].as_slice())??;
    assert_eq!(rt; calls.as_slice(), [3, 3, 8, 3, 8, 3].as_slice());
    Ok(())
}

#[test]
fn a_loop_whose_entry_is_counted_first(rt: HostRuntime) -> Result<(), Fail> {
    let alloc = rt.alloc();
    let graph = graph_of(alloc, LOOP)?;
    let weights = static_weights(alloc, &graph, true)?;
    assert_eq!(rt; weights.as_slice(), [0, 2, 2, 2, 20, 1].as_slice());
    let tree = grow(alloc, &graph, true)?;
    assert_eq!(rt; tree.order.as_slice(), [5, 3, 4, 1].as_slice());
    assert_eq!(rt; tree.counted.as_slice(), [0, 2].as_slice());
    // MD5 of "5 6 0 1 1 2 2 3 2 4 3 2 4 0 2 0 0 1"
    assert_eq!(rt;
        function_hash(alloc, &graph, 2, true)?,
        8_800_037_394_803_806_888
    );
    let three = counts(alloc, &graph, true, [1, 3].as_slice())??;
    assert_eq!(rt; three.as_slice(), [1, 1, 3, 1, 3, 1].as_slice());
    Ok(())
}

#[test]
fn one_block_keeps_the_counter_of_its_exit(rt: HostRuntime) -> Result<(), Fail> {
    let alloc = rt.alloc();
    let graph = graph_of(alloc, SINGLE)?;
    assert_eq!(rt; graph.nodes(), 2);
    let tree = grow(alloc, &graph, false)?;
    assert_eq!(rt; tree.order.as_slice(), [0].as_slice());
    assert_eq!(rt; tree.counted.as_slice(), [1].as_slice());
    // MD5 of "2 2 0 1 1 0 1 0 0"
    assert_eq!(rt;
        function_hash(alloc, &graph, 1, false)?,
        4_042_501_815_599_933_724
    );
    Ok(())
}

#[test]
fn parallel_edges_are_critical(rt: HostRuntime) -> Result<(), Fail> {
    let alloc = rt.alloc();
    let graph = graph_of(alloc, PARALLEL)?;
    let weights = static_weights(alloc, &graph, false)?;
    assert_eq!(rt; weights.as_slice(), [1, 2000, 2000, 1].as_slice());
    let tree = grow(alloc, &graph, false)?;
    assert_eq!(rt; tree.order.as_slice(), [0, 1].as_slice());
    assert_eq!(rt; tree.counted.as_slice(), [2, 3].as_slice());
    // MD5 of "3 4 0 1 1 2 1 2 2 0 2 0 0"
    assert_eq!(rt;
        function_hash(alloc, &graph, 2, false)?,
        17_155_396_289_649_490_010
    );
    let once = counts(alloc, &graph, false, [0, 1].as_slice())??;
    assert_eq!(rt; once.as_slice(), [1, 1, 0, 1].as_slice());
    Ok(())
}

#[test]
fn the_default_and_the_cases_of_a_switch_are_edges_of_their_own(
    rt: HostRuntime,
) -> Result<(), Fail> {
    let alloc = rt.alloc();
    let function = switching_function(alloc)?;
    let graph = Graph::of(alloc, &function)?;
    assert_eq!(rt; graph.nodes(), 3);
    let tree = grow(alloc, &graph, false)?;
    assert_eq!(rt; tree.order.as_slice(), [0, 1].as_slice());
    assert_eq!(rt; tree.counted.as_slice(), [2, 3, 4, 5].as_slice());
    // MD5 of "3 6 0 1 1 2 1 2 1 2 1 2 2 0 4 0 0"
    assert_eq!(rt;
        function_hash(alloc, &graph, 4, false)?,
        3_465_782_557_901_949_484
    );
    // the case 1 is taken once
    let once = counts(alloc, &graph, false, [0, 1, 0, 1].as_slice())??;
    assert_eq!(rt; once.as_slice(), [1, 0, 0, 1, 0, 1].as_slice());
    Ok(())
}

#[test]
fn counters_that_no_run_gives_are_refused(rt: HostRuntime) -> Result<(), Fail> {
    let alloc = rt.alloc();
    let graph = graph_of(alloc, DIAMOND)?;
    let tree = grow(alloc, &graph, false)?;
    assert_eq!(rt; tree.order.as_slice(), [0, 1, 2, 3].as_slice());
    assert_eq!(rt; tree.counted.as_slice(), [4, 5].as_slice());
    // MD5 of "5 6 0 1 1 2 1 3 2 4 3 4 4 0 2 0 0"
    assert_eq!(rt;
        function_hash(alloc, &graph, 2, false)?,
        3_633_064_769_621_108_885
    );
    let Err(error) = counts(alloc, &graph, false, [5, 0].as_slice())? else {
        return Err("solved".into());
    };
    assert!(rt; error == SolveError::Inconsistent { edge: 1, value: -5 });
    Ok(())
}

#[test]
fn a_loop_without_an_exit_is_never_entered(rt: HostRuntime) -> Result<(), Fail> {
    let alloc = rt.alloc();
    let graph = graph_of(alloc, SPIN)?;
    let tree = grow(alloc, &graph, true)?;
    assert_eq!(rt; tree.order.as_slice(), [0, 1].as_slice());
    assert_eq!(rt; tree.counted.as_slice(), [0, 2].as_slice());
    let open = counts(alloc, &graph, true, [0, 7].as_slice())??;
    assert_eq!(rt; open.as_slice(), [0, 0, 7].as_slice());
    let Err(error) = counts(alloc, &graph, true, [3, 0].as_slice())? else {
        return Err("solved".into());
    };
    assert!(rt; error == SolveError::EntryDiffers { counter: 3 });
    Ok(())
}
