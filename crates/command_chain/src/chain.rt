// The command `chain MODULE CALLS`: runs calls on a module and counts the traversals of every edge.
ghost use Rattle.std.specs.Prelude.{◌≡◌, ◌≤◌, ℕ, [], IfErr, IfOk, OnOk, get_or, length};
ghost use Rattle.std.specs.Option.{option_map};
ghost use Rattle.ir_rules.specs.Accepted.{IsAccepted};
ghost use Rattle.ir_rules.specs.Kinds.{kind_of};
ghost use Rattle.ir_rules.specs.declared.place.Kind.TheVariants.{Plain};
ghost use Rattle.ir_machine.specs.Slots.{edges_of_all};
ghost use Rattle.ir_model.specs.Run.{IsValidCallList};
ghost use Rattle.pgo_shell.specs.Product.{RefusedBy, bytes_of, made_of};
ghost use Rattle.command_chain.specs.Chain.{ChainMakes, chain_judgement};
ghost use Rattle.command_chain.specs.ChainFiles.{files_of};
ghost use Rattle.command_chain.specs.Counted.{AreWalks};
ghost use Rattle.command_run.specs.Outcomes.{first_unreturned, outcomes};

use crate::Chain;
use crate::report::push_report;
use call_list::outcome;
use command_run::first_unreturned;
use command_texts::{calls, plain_code, program};
use ir_check::{Checked, functions_have_graphs, functions_have_numbers};
use ir_machine::{Code, edges_are_counted, trace_call};
use ir_model::Call;
use ir_tree::Numbering;
use pgo_base::{Gate, NoMemory};
use pgo_shell::{Command, Product, Refusal};
use std::alloc::Global;
use std::thread::Threads;

impl Command for Chain {
    ghost use Rattle.command_chain.specs.Chain.{chain_task};
    ghost use Rattle.command_chain.specs.ChainFiles.{files_of};

    ghost task = { λ chain. chain_task (files_of chain) };

    fn read_name(&self, index: usize) -> Option<&str> {
        match index {
            0 => Some(self.module.as_str()),
            1 => Some(self.calls.as_str()),
            _ => None,
        }
    }

    fn write_name(&self, _index: usize) -> Option<&str> {
        None
    }

    fn product<R: Threads + Sync, G: Gate + Sync>(
        &self,
        _rt: &R,
        alloc: Global,
        texts: &[Vec<u8>],
        _gate: &G,
    ) -> Result<Product, Refusal> {
        chain_texts(alloc, self, &texts[0], &texts[1])
    }
}

// What the texts of its files come to.
fn chain_texts(
    alloc: Global,
    command: &Chain,
    program_text: &[u8],
    calls_text: &[u8],
) -> Result<Product, Refusal>
    ensures gives { IfOk result (λ p. (chain_judgement (files_of command.now) program_text.now calls_text.now).finds (made_of p)) }
    ensures refuses { IfErr result (RefusedBy (chain_judgement (files_of command.now) program_text.now calls_text.now)) }
    ensures files { IfOk result (λ p. p.files.items ≡ []) }
{
    let module = program(alloc, &command.module, program_text)?;
    let code = plain_code(alloc, &command.module, &module)?;
    let calls = calls(alloc, &command.calls, &module, calls_text)?;
    let product = count_all(alloc, &module, &code, calls.as_slice(), command.steps)?;
    Ok(product)
}

// The outcomes of calls, and what is said of the first that did not return.
#[derive(Drop)]
struct Outcomes {
    output: Vec<u8>,
    halted: Option<Vec<u8>>,
}

// Runs the calls, and reports the counts where all of them return.
fn count_all(
    alloc: Global,
    module: &Checked,
    code: &Code,
    calls: &[Call],
    steps: u64,
) -> Result<Product, NoMemory>
    requires few { steps ≤ 1_099_511_627_776 }
    requires code { code.now ≡ «module».now }
    requires accepted { IsAccepted «module».now }
    requires plain { kind_of «module».now.functions ≡ Plain }
    requires valid { IsValidCallList «module».now calls.now }
    ensures made { IfOk result (λ product. ChainMakes «module».now steps calls.now (made_of product)) }
    ensures files { IfOk result (λ product. product.files.items ≡ []) }
{
    edges_are_counted();
    functions_have_graphs();
    functions_have_numbers();
    let mut counts = vec![in alloc; 0u64; code.edge_total() as usize]?;
    let Outcomes { mut output, halted } = trace_all(
        alloc,
        module,
        code,
        calls,
        steps,
        counts.as_mut_slice(),
    )?;
    match halted {
        None => {
            push_report(alloc, module, code, counts.as_slice(), &mut output)?;
            Ok(Product {
                halted: None,
                output,
                files: Vec::new(alloc),
            })
        }
        Some(line) => Ok(Product {
            halted: Some(line),
            output,
            files: Vec::new(alloc),
        }),
    }
}

// Runs the calls in order, and counts the walks of each edge.
fn trace_all(
    alloc: Global,
    module: &Checked,
    code: &Code,
    calls: &[Call],
    steps: u64,
    counts: &mut [u64],
) -> Result<Outcomes, NoMemory>
    requires code { code.now ≡ «module».now }
    requires valid { IsValidCallList «module».now calls.now }
    requires few { steps ≤ 1_099_511_627_776 }
    requires all { length counts.old ≡ edges_of_all code.now }
    requires none { (slot : ℕ) → get_or counts.old slot 0 ≡ 0 }
    ensures output { IfOk result (λ o. o.output.items ≡ outcomes «module».now steps 0 calls.now) }
    ensures halted { IfOk result (λ o. option_map bytes_of o.halted ≡ first_unreturned «module».now steps 0 calls.now) }
    ensures counts { OnOk result (AreWalks «module».now steps calls.now counts.new) }
{
    let functions = Numbering::of(alloc, module.module().functions.as_slice())?;
    let mut output = Vec::new(alloc);
    let mut halted = None;
    for (number, call) in calls.iter().enumerate() {
        let ended = trace_call(alloc, code, call, steps, counts)?;
        let text = outcome(alloc, &functions, number as u32, call, &ended)?;
        output.extend_from_slice(text.as_slice())?;
        halted = first_unreturned(alloc, halted, number as u32, ended.end)?;
    }
    Ok(Outcomes { output, halted })
}
