// What `run` makes of a module and its calls: it runs the calls, and makes the text of their outcomes and the profile of the run.
ghost use Rattle.std.specs.Prelude.{◌≡◌, ◌++◌, None, IfErr, IfOk, length};
ghost use Rattle.std.specs.Option.{option_map};
ghost use Rattle.std.specs.String.{string_bytes};
ghost use Rattle.ir_code.specs.Units.{tallies_of};
ghost use Rattle.ir_model.specs.Run.{IsValidCallList};
ghost use Rattle.ir_rules.specs.Accepted.{IsAccepted};
ghost use Rattle.pgo_shell.specs.Product.{RefusedBy, bytes_of_all, made_of};
ghost use Rattle.run_texts.specs.RunProfile.{AreApart};
ghost use Rattle.run_texts.specs.SiteLines.{site_lines};
ghost use Rattle.command_run.specs.Run.{AreProfiles, RunMakes, is_lowered, run_judgement, takes_for, written_names};
ghost use Rattle.command_run.specs.RunFiles.{files_of};

use crate::outcomes::outcomes;
use crate::run::Run;
use command_lines::refused;
use command_texts::{calls, code, program};
use ir_check::{Checked, Kind};
use ir_machine::Code;
use ir_model::{Call, Tally};
use ir_tree::Numbering;
use pgo_base::{NoMemory, QuietGate};
use pgo_shell::{Product, Refusal};
use run_profile::{RunCounts, run_counted};
use run_texts::{profile_text, site_lines};
use std::alloc::Global;
use std::thread::Threads;
use tally_names::tallies_have_names;

/// What the texts of its files come to.
pub fn run_texts<R: Threads + Sync>(
    rt: &R,
    alloc: Global,
    command: &Run,
    program_text: &[u8],
    calls_text: &[u8],
) -> Result<Product, Refusal>
    ensures gives { IfOk result (λ p. (run_judgement (files_of command.now) program_text.now calls_text.now).finds (made_of p)) }
    ensures refuses { IfErr result (RefusedBy (run_judgement (files_of command.now) program_text.now calls_text.now)) }
    ensures files { IfOk result (λ p. p.halted ≡ None → length p.files.items ≡ length (written_names (option_map string_bytes command.now.profile))) }
{
    let module = program(alloc, &command.module, program_text)?;
    let code = code_for(alloc, command, &module)?;
    let calls = calls(alloc, &command.calls, &module, calls_text)?;
    let product = run_all(rt, alloc, command, &module, &code, calls.as_slice())?;
    Ok(product)
}

// The code of a program of a kind that it takes: one without intrinsics that count, and where a profile is asked for, one with
// counters.
fn code_for<'a>(alloc: Global, command: &Run, module: &'a Checked) -> Result<Code<'a>, Refusal>
    ensures code { IfOk result (λ code. code ≡ «module».now) }
    ensures found { IfOk result (λ _. (takes_for (option_map string_bytes command.now.profile) (string_bytes command.now.«module») «module».now).finds tt) }
    ensures refuses { IfErr result (RefusedBy (takes_for (option_map string_bytes command.now.profile) (string_bytes command.now.«module») «module».now)) }
{
    match &command.profile {
        Some(_) => lowered_code(alloc, &command.module, module),
        None => code(alloc, &command.module, module),
    }
}

// The code of a program with counters.
fn lowered_code<'a>(alloc: Global, name: &str, module: &'a Checked) -> Result<Code<'a>, Refusal>
    ensures code { IfOk result (λ code. code ≡ «module».now) }
    ensures found { IfOk result (λ _. (is_lowered name.now «module».now).finds tt) }
    ensures refuses { IfErr result (RefusedBy (is_lowered name.now «module».now)) }
{
    match module.kind() {
        Kind::Plain => Err(refused(alloc, name, b": wrong kind plain")),
        Kind::Counted => Err(refused(alloc, name, b": wrong kind counted")),
        Kind::Lowered => code(alloc, name, module),
    }
}

// Runs the calls. The gate of the command is not handed to the workers, who may share nothing that is known of one thread alone;
// theirs does nothing.
fn run_all<R: Threads + Sync>(
    rt: &R,
    alloc: Global,
    command: &Run,
    module: &Checked,
    code: &Code,
    calls: &[Call],
) -> Result<Product, NoMemory>
    requires code { code.now ≡ «module».now }
    requires valid { IsValidCallList «module».now calls.now }
    ensures made { IfOk result (λ product. RunMakes command.now.places (option_map string_bytes command.now.profile) command.now.entry_first «module».now command.now.steps calls.now (made_of product)) }
    ensures files { IfOk result (λ product. product.halted ≡ None → length product.files.items ≡ length (written_names (option_map string_bytes command.now.profile))) }
{
    let ran = run_counted(
        rt,
        alloc,
        code,
        calls,
        command.steps,
        command.workers,
        command.places,
        &QuietGate,
    )?;
    let functions = Numbering::of(alloc, module.module().functions.as_slice())?;
    let (halted, output) = outcomes(alloc, &functions, calls, ran.results.as_slice())?;
    match halted {
        Some(line) => Ok(Product {
            halted: Some(line),
            output,
            files: Vec::new(alloc),
        }),
        None => {
            let product = finished(alloc, command, &functions, code, &ran, output)?;
            Ok(product)
        }
    }
}

// What is made where all calls returned: the outcomes, the lines of the sites, and the profile.
fn finished(
    alloc: Global,
    command: &Run,
    functions: &Numbering,
    code: &Code,
    counts: &RunCounts,
    outcomes: Vec<u8>,
) -> Result<Product, NoMemory>
    requires accepted { IsAccepted code.now }
    ensures halted { IfOk result (λ product. product.halted ≡ None) }
    ensures output { IfOk result (λ product. product.output.items ≡ outcomes.items ++ site_lines (tallies_of code.now) counts.now.rows.items) }
    ensures written { IfOk result (λ product. AreProfiles (option_map string_bytes command.now.profile) command.now.entry_first functions.now (tallies_of code.now) counts.now.counters.items counts.now.rows.items (bytes_of_all product.files.items)) }
    ensures files { IfOk result (λ product. length product.files.items ≡ length (written_names (option_map string_bytes command.now.profile))) }
{
    let mut output = outcomes;
    let lines = site_lines(alloc, code.tallies(), counts.rows.as_slice())?;
    output.extend_from_slice(lines.as_slice())?;
    tallies_have_names();
    let files = profiles(alloc, command, functions, code.tallies(), counts)?;
    Ok(Product {
        halted: None,
        output,
        files,
    })
}

// The text of the profile, where one is asked for.
fn profiles(
    alloc: Global,
    command: &Run,
    functions: &Numbering,
    tallies: &[Tally],
    counts: &RunCounts,
) -> Result<Vec<Vec<u8>>, NoMemory>
    requires apart { AreApart tallies.now }
    ensures written { IfOk result (λ files. AreProfiles (option_map string_bytes command.now.profile) command.now.entry_first functions.now tallies.now counts.now.counters.items counts.now.rows.items (bytes_of_all files.items)) }
    ensures length { IfOk result (λ files. length files.items ≡ length (written_names (option_map string_bytes command.now.profile))) }
{
    let mut files = Vec::new(alloc);
    if command.profile.is_some() {
        files.push(profile_text(
            alloc,
            functions,
            tallies,
            counts.counters.as_slice(),
            counts.rows.as_slice(),
            command.entry_first,
        )?)?;
    }
    Ok(files)
}
