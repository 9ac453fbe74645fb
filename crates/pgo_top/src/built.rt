// The commands that are built.
ghost use Rattle.std.specs.Prelude.{◌≡◌, map};
ghost use Rattle.std.specs.Option.{option_map};
ghost use Rattle.std.specs.String.{string_bytes};
ghost use Rattle.pgo_top.specs.Asked.{asked_by, chain_asked, is_few, is_place_count, merge_asked, run_asked};
ghost use Rattle.pgo_top.specs.Built.{asked_value};
ghost use Rattle.pgo_words.specs.Plan.{plan_value};

use command_chain::Chain;
use command_check::Check;
use command_gen::Gen;
use command_lower::Lower;
use command_merge::Merge;
use command_print::Print;
use command_run::Run;
use command_show::Show;
use pgo_base::Gate;
use pgo_shell::{Command, Product, Refusal};
use pgo_words::Plan;
use std::alloc::Global;
use std::thread::Threads;

/// A command that is built, with its arguments.
#[derive(Drop)]
pub enum Built {
    Check(Check),
    Print(Print),
    Gen(Gen),
    Lower(Lower),
    Run(Run),
    Chain(Chain),
    Merge(Merge),
    Show(Show),
}

impl Command for Built {
    ghost use Rattle.pgo_top.specs.Asked.{task_of};
    ghost use Rattle.pgo_top.specs.Built.{asked_value};

    ghost task = { λ command. task_of (asked_value command) };

    fn read_name(&self, index: usize) -> Option<&str> {
        match self {
            Built::Check(check) => check.read_name(index),
            Built::Print(print) => print.read_name(index),
            Built::Gen(gen_command) => gen_command.read_name(index),
            Built::Lower(lower) => lower.read_name(index),
            Built::Run(run) => run.read_name(index),
            Built::Chain(chain) => chain.read_name(index),
            Built::Merge(merge) => merge.read_name(index),
            Built::Show(show) => show.read_name(index),
        }
    }

    fn write_name(&self, index: usize) -> Option<&str> {
        match self {
            Built::Check(check) => check.write_name(index),
            Built::Print(print) => print.write_name(index),
            Built::Gen(gen_command) => gen_command.write_name(index),
            Built::Lower(lower) => lower.write_name(index),
            Built::Run(run) => run.write_name(index),
            Built::Chain(chain) => chain.write_name(index),
            Built::Merge(merge) => merge.write_name(index),
            Built::Show(show) => show.write_name(index),
        }
    }

    fn product<R: Threads + Sync, G: Gate + Sync>(
        &self,
        rt: &R,
        alloc: Global,
        texts: &[Vec<u8>],
        gate: &G,
    ) -> Result<Product, Refusal> {
        match self {
            Built::Check(check) => check.product(rt, alloc, texts, gate),
            Built::Print(print) => print.product(rt, alloc, texts, gate),
            Built::Gen(gen_command) => gen_command.product(rt, alloc, texts, gate),
            Built::Lower(lower) => lower.product(rt, alloc, texts, gate),
            Built::Run(run) => run.product(rt, alloc, texts, gate),
            Built::Chain(chain) => chain.product(rt, alloc, texts, gate),
            Built::Merge(merge) => merge.product(rt, alloc, texts, gate),
            Built::Show(show) => show.product(rt, alloc, texts, gate),
        }
    }
}

/// The most steps that a call is given.
const MOST_STEPS: u64 = 1_099_511_627_776;

/// The command of a plan; None where its work is not built.
pub fn command_for(plan: Plan) -> Option<Built>
    ensures { option_map asked_value result ≡ asked_by (plan_value plan) }
{
    match plan {
        Plan::Check { module } => Some(Built::Check(Check { module })),
        Plan::Print { module } => Some(Built::Print(Print { module })),
        Plan::Gen {
            module,
            out,
            entry_first,
        } => Some(Built::Gen(Gen {
            module,
            out,
            entry_first,
        })),
        Plan::Lower { module, out } => Some(Built::Lower(Lower { module, out })),
        Plan::Run {
            module,
            calls,
            steps,
            workers,
            profile,
            entry_first,
            places,
        } => run_for(module, calls, steps, workers, profile, entry_first, places),
        Plan::Walks {
            module,
            calls,
            steps,
        } => chain_for(module, calls, steps),
        Plan::Merge {
            out,
            inputs,
            workers,
        } => merge_for(out, inputs, workers),
        Plan::Show { input } => Some(Built::Show(Show { input })),
        Plan::Edges { .. }
        | Plan::Annotate { .. }
        | Plan::Promote { .. }
        | Plan::Chain { .. }
        | Plan::Large { .. }
        | Plan::Layout { .. }
        | Plan::Tree { .. } => None,
    }
}

// A `run` of numbers of steps, workers and places that are allowed.
fn run_for(
    module: String,
    calls: String,
    steps: u64,
    workers: u32,
    profile: Option<String>,
    entry_first: bool,
    places: u32,
) -> Option<Built>
    ensures { option_map asked_value result ≡ run_asked (record { «module» = string_bytes «module»; calls = string_bytes calls; steps = steps; workers = workers; profile = option_map string_bytes profile; entry_first = entry_first; places = places }) }
{
    if steps <= MOST_STEPS && is_few(workers as usize) && is_place_count(places) {
        Some(Built::Run(Run {
            module,
            calls,
            steps,
            workers,
            profile,
            entry_first,
            places,
        }))
    } else {
        None
    }
}

// A `chain` of a number of steps that is allowed.
fn chain_for(module: String, calls: String, steps: u64) -> Option<Built>
    ensures { option_map asked_value result ≡ chain_asked (record { «module» = string_bytes «module»; calls = string_bytes calls; steps = steps }) }
{
    if steps <= MOST_STEPS {
        Some(Built::Chain(Chain {
            module,
            calls,
            steps,
        }))
    } else {
        None
    }
}

// Whether this is a number of places of a site.
fn is_place_count(number: u32) -> bool
    ensures { result ≡ is_place_count number }
{
    1 <= number && number <= 24
}

// Whether this is a number of workers, or of inputs of a merge.
fn is_few(number: usize) -> bool
    ensures { result ≡ is_few number }
{
    1 <= number && number <= 64
}

// A merge of 1 to 64 inputs by 1 to 64 workers.
fn merge_for(out: String, inputs: Vec<String>, workers: u32) -> Option<Built>
    ensures { option_map asked_value result ≡ merge_asked (string_bytes out) (map string_bytes inputs.items) workers }
{
    if is_few(inputs.len()) && is_few(workers as usize) {
        Some(Built::Merge(Merge {
            out,
            inputs,
            workers,
        }))
    } else {
        None
    }
}
