// Each command: which options it has, and its files and numbers in order.
ghost use Rattle.std.specs.Prelude.{◌≡◌, ◌==◌, IfOk, IsErrOf, None, Some, length, option_map, string_bytes};
ghost use Rattle.pgo_words.specs.Plan.{plan_value, stream_value, words_of};
ghost use Rattle.pgo_words.specs.Table.{chain_words, plan_in, settings_of, stream_in, walk_words};
ghost use Rattle.pgo_words.specs.Values.{given_value, now_of, settings_value, texts_of};

use crate::command::CommandName;
use crate::files::{four, inputs, number, one, three, two};
use crate::given::Given;
use crate::settings::{Allowed, NO_OPTIONS, Settings, settings_of};
use crate::{Plan, StreamPlan, WordsError};
use std::alloc::{AllocError, Global};

const ENTRY_FIRST: Allowed = Allowed {
    entry_first: true,
    ..NO_OPTIONS
};

const WORKERS: Allowed = Allowed {
    workers: true,
    ..NO_OPTIONS
};

const RUN: Allowed = Allowed {
    steps: true,
    workers: true,
    profile: true,
    entry_first: true,
    places: true,
    ..NO_OPTIONS
};

const CHAIN: Allowed = Allowed {
    steps: true,
    workers: true,
    entry_first: true,
    places: true,
    ..NO_OPTIONS
};

const WALKS: Allowed = Allowed {
    steps: true,
    ..NO_OPTIONS
};

const LARGE: Allowed = Allowed {
    workers: true,
    places: true,
    ..NO_OPTIONS
};

const PEEL: Allowed = Allowed {
    peel: true,
    ..NO_OPTIONS
};

const STREAM: Allowed = Allowed {
    steps: true,
    workers: true,
    room: true,
    ..NO_OPTIONS
};

/// The plan of a command with these files, numbers and options.
pub fn plan_in(alloc: Global, command: CommandName, given: &Given<'_>) -> Result<Plan, WordsError>
    ensures plan { IfOk result (λ p. plan_in command (given_value given.now) ≡ Some (plan_value p)) }
    ensures usage { IsErrOf result WordsError.Usage → plan_in command (given_value given.now) ≡ None }
{
    match command {
        CommandName::Check => check_plan(alloc, given),
        CommandName::Print => print_plan(alloc, given),
        CommandName::Gen => gen_plan(alloc, given),
        CommandName::Lower => lower_plan(alloc, given),
        CommandName::Run => run_plan(alloc, given),
        CommandName::Merge => merge_plan(alloc, given),
        CommandName::Show => show_plan(alloc, given),
        CommandName::Edges => edges_plan(alloc, given),
        CommandName::Use => annotate_plan(alloc, given),
        CommandName::Promote => promote_plan(alloc, given),
        CommandName::Chain => any_chain_plan(alloc, given),
        CommandName::Large => large_plan(alloc, given),
        CommandName::Layout => layout_plan(alloc, given),
        CommandName::Tree => tree_plan(alloc, given),
    }
}

// The options that are given, where the command has them.
fn settled<'a>(may: Allowed, given: &Given<'a>) -> Result<Settings<'a>, WordsError>
    ensures found { IfOk result (λ s. settings_of may (given_value given.now) ≡ Some (settings_value s)) }
    ensures usage { IsErrOf result WordsError.Usage → settings_of may (given_value given.now) ≡ None }
{
    match settings_of(may, given) {
        Some(settings) => Ok(settings),
        None => Err(WordsError::Usage),
    }
}

fn check_plan(alloc: Global, given: &Given<'_>) -> Result<Plan, WordsError>
    ensures plan { IfOk result (λ p. plan_in CommandName.Check (given_value given.now) ≡ Some (plan_value p)) }
    ensures usage { IsErrOf result WordsError.Usage → plan_in CommandName.Check (given_value given.now) ≡ None }
{
    settled(NO_OPTIONS, given)?;
    let module = one(&given.files)?;
    Ok(Plan::Check {
        module: String::from_str(alloc, module)?,
    })
}

fn print_plan(alloc: Global, given: &Given<'_>) -> Result<Plan, WordsError>
    ensures plan { IfOk result (λ p. plan_in CommandName.Print (given_value given.now) ≡ Some (plan_value p)) }
    ensures usage { IsErrOf result WordsError.Usage → plan_in CommandName.Print (given_value given.now) ≡ None }
{
    settled(NO_OPTIONS, given)?;
    let module = one(&given.files)?;
    Ok(Plan::Print {
        module: String::from_str(alloc, module)?,
    })
}

fn gen_plan(alloc: Global, given: &Given<'_>) -> Result<Plan, WordsError>
    ensures plan { IfOk result (λ p. plan_in CommandName.Gen (given_value given.now) ≡ Some (plan_value p)) }
    ensures usage { IsErrOf result WordsError.Usage → plan_in CommandName.Gen (given_value given.now) ≡ None }
{
    let settings = settled(ENTRY_FIRST, given)?;
    let (module, out) = two(&given.files)?;
    Ok(Plan::Gen {
        module: String::from_str(alloc, module)?,
        out: String::from_str(alloc, out)?,
        entry_first: settings.entry_first,
    })
}

fn lower_plan(alloc: Global, given: &Given<'_>) -> Result<Plan, WordsError>
    ensures plan { IfOk result (λ p. plan_in CommandName.Lower (given_value given.now) ≡ Some (plan_value p)) }
    ensures usage { IsErrOf result WordsError.Usage → plan_in CommandName.Lower (given_value given.now) ≡ None }
{
    settled(NO_OPTIONS, given)?;
    let (module, out) = two(&given.files)?;
    Ok(Plan::Lower {
        module: String::from_str(alloc, module)?,
        out: String::from_str(alloc, out)?,
    })
}

fn run_plan(alloc: Global, given: &Given<'_>) -> Result<Plan, WordsError>
    ensures plan { IfOk result (λ p. plan_in CommandName.Run (given_value given.now) ≡ Some (plan_value p)) }
    ensures usage { IsErrOf result WordsError.Usage → plan_in CommandName.Run (given_value given.now) ≡ None }
{
    let settings = settled(RUN, given)?;
    let (module, calls) = two(&given.files)?;
    Ok(Plan::Run {
        module: String::from_str(alloc, module)?,
        calls: String::from_str(alloc, calls)?,
        steps: settings.steps,
        workers: settings.workers,
        profile: copied(alloc, settings.profile)?,
        entry_first: settings.entry_first,
        places: settings.places,
    })
}

fn merge_plan(alloc: Global, given: &Given<'_>) -> Result<Plan, WordsError>
    ensures plan { IfOk result (λ p. plan_in CommandName.Merge (given_value given.now) ≡ Some (plan_value p)) }
    ensures usage { IsErrOf result WordsError.Usage → plan_in CommandName.Merge (given_value given.now) ≡ None }
{
    let settings = settled(WORKERS, given)?;
    let (out, inputs) = inputs(&given.files)?;
    Ok(Plan::Merge {
        out: String::from_str(alloc, out)?,
        inputs: all_copied(alloc, inputs)?,
        workers: settings.workers,
    })
}

fn show_plan(alloc: Global, given: &Given<'_>) -> Result<Plan, WordsError>
    ensures plan { IfOk result (λ p. plan_in CommandName.Show (given_value given.now) ≡ Some (plan_value p)) }
    ensures usage { IsErrOf result WordsError.Usage → plan_in CommandName.Show (given_value given.now) ≡ None }
{
    settled(NO_OPTIONS, given)?;
    let input = one(&given.files)?;
    Ok(Plan::Show {
        input: String::from_str(alloc, input)?,
    })
}

fn edges_plan(alloc: Global, given: &Given<'_>) -> Result<Plan, WordsError>
    ensures plan { IfOk result (λ p. plan_in CommandName.Edges (given_value given.now) ≡ Some (plan_value p)) }
    ensures usage { IsErrOf result WordsError.Usage → plan_in CommandName.Edges (given_value given.now) ≡ None }
{
    settled(NO_OPTIONS, given)?;
    let (module, profile) = two(&given.files)?;
    Ok(Plan::Edges {
        module: String::from_str(alloc, module)?,
        profile: String::from_str(alloc, profile)?,
    })
}

fn annotate_plan(alloc: Global, given: &Given<'_>) -> Result<Plan, WordsError>
    ensures plan { IfOk result (λ p. plan_in CommandName.Use (given_value given.now) ≡ Some (plan_value p)) }
    ensures usage { IsErrOf result WordsError.Usage → plan_in CommandName.Use (given_value given.now) ≡ None }
{
    settled(NO_OPTIONS, given)?;
    let (module, profile, out) = three(&given.files)?;
    Ok(Plan::Annotate {
        module: String::from_str(alloc, module)?,
        profile: String::from_str(alloc, profile)?,
        out: String::from_str(alloc, out)?,
    })
}

fn promote_plan(alloc: Global, given: &Given<'_>) -> Result<Plan, WordsError>
    ensures plan { IfOk result (λ p. plan_in CommandName.Promote (given_value given.now) ≡ Some (plan_value p)) }
    ensures usage { IsErrOf result WordsError.Usage → plan_in CommandName.Promote (given_value given.now) ≡ None }
{
    settled(NO_OPTIONS, given)?;
    let (module, profile, out) = three(&given.files)?;
    Ok(Plan::Promote {
        module: String::from_str(alloc, module)?,
        profile: String::from_str(alloc, profile)?,
        out: String::from_str(alloc, out)?,
    })
}

fn any_chain_plan(alloc: Global, given: &Given<'_>) -> Result<Plan, WordsError>
    ensures plan { IfOk result (λ p. plan_in CommandName.Chain (given_value given.now) ≡ Some (plan_value p)) }
    ensures usage { IsErrOf result WordsError.Usage → plan_in CommandName.Chain (given_value given.now) ≡ None }
{
    if has_two(&given.files) {
        return walks_plan(alloc, given);
    }
    chain_plan(alloc, given)
}

// Whether two files are given.
fn has_two(files: &[&str]) -> bool
    ensures { result ≡ (length (texts_of files.now) == 2) }
{
    files.len() == 2
}

fn walks_plan(alloc: Global, given: &Given<'_>) -> Result<Plan, WordsError>
    ensures plan { IfOk result (λ p. walk_words (given_value given.now) ≡ Some (plan_value p)) }
    ensures usage { IsErrOf result WordsError.Usage → walk_words (given_value given.now) ≡ None }
{
    let settings = settled(WALKS, given)?;
    let (module, calls) = two(&given.files)?;
    Ok(Plan::Walks {
        module: String::from_str(alloc, module)?,
        calls: String::from_str(alloc, calls)?,
        steps: settings.steps,
    })
}

fn chain_plan(alloc: Global, given: &Given<'_>) -> Result<Plan, WordsError>
    ensures plan { IfOk result (λ p. chain_words (given_value given.now) ≡ Some (plan_value p)) }
    ensures usage { IsErrOf result WordsError.Usage → chain_words (given_value given.now) ≡ None }
{
    let settings = settled(CHAIN, given)?;
    let (module, calls, profile, out) = four(&given.files)?;
    Ok(Plan::Chain {
        module: String::from_str(alloc, module)?,
        calls: String::from_str(alloc, calls)?,
        profile: String::from_str(alloc, profile)?,
        out: String::from_str(alloc, out)?,
        steps: settings.steps,
        workers: settings.workers,
        entry_first: settings.entry_first,
        places: settings.places,
    })
}

fn large_plan(alloc: Global, given: &Given<'_>) -> Result<Plan, WordsError>
    ensures plan { IfOk result (λ p. plan_in CommandName.Large (given_value given.now) ≡ Some (plan_value p)) }
    ensures usage { IsErrOf result WordsError.Usage → plan_in CommandName.Large (given_value given.now) ≡ None }
{
    let settings = settled(LARGE, given)?;
    let number = number(&given.files)?;
    Ok(Plan::Large {
        number,
        workers: settings.workers,
        places: settings.places,
    })
}

fn layout_plan(alloc: Global, given: &Given<'_>) -> Result<Plan, WordsError>
    ensures plan { IfOk result (λ p. plan_in CommandName.Layout (given_value given.now) ≡ Some (plan_value p)) }
    ensures usage { IsErrOf result WordsError.Usage → plan_in CommandName.Layout (given_value given.now) ≡ None }
{
    let settings = settled(PEEL, given)?;
    let (module, profile, out) = three(&given.files)?;
    Ok(Plan::Layout {
        module: String::from_str(alloc, module)?,
        profile: String::from_str(alloc, profile)?,
        out: String::from_str(alloc, out)?,
        peel: settings.peel,
    })
}

fn tree_plan(alloc: Global, given: &Given<'_>) -> Result<Plan, WordsError>
    ensures plan { IfOk result (λ p. plan_in CommandName.Tree (given_value given.now) ≡ Some (plan_value p)) }
    ensures usage { IsErrOf result WordsError.Usage → plan_in CommandName.Tree (given_value given.now) ≡ None }
{
    let settings = settled(ENTRY_FIRST, given)?;
    let module = one(&given.files)?;
    Ok(Plan::Tree {
        module: String::from_str(alloc, module)?,
        entry_first: settings.entry_first,
    })
}

/// The plan of the command `stream` with these files and options.
pub fn stream_in(alloc: Global, given: &Given<'_>) -> Result<StreamPlan, WordsError>
    ensures plan { IfOk result (λ p. stream_in (given_value given.now) ≡ Some (stream_value p)) }
    ensures usage { IsErrOf result WordsError.Usage → stream_in (given_value given.now) ≡ None }
{
    let settings = settled(STREAM, given)?;
    let (module, calls) = two(&given.files)?;
    Ok(StreamPlan {
        module: String::from_str(alloc, module)?,
        calls: String::from_str(alloc, calls)?,
        steps: settings.steps,
        workers: settings.workers,
        room: settings.room,
    })
}

// The file of an option, if it was given.
fn copied(alloc: Global, file: Option<&str>) -> Result<Option<String>, AllocError>
    ensures { IfOk result (λ copy. option_map string_bytes copy ≡ option_map now_of file.entry) }
{
    match file {
        Some(name) => Ok(Some(String::from_str(alloc, name)?)),
        None => Ok(None),
    }
}

// Several files.
fn all_copied(alloc: Global, files: &[&str]) -> Result<Vec<String>, AllocError>
    ensures { IfOk result (λ copies. words_of copies.items ≡ texts_of files.now) }
{
    let mut copies = Vec::new(alloc);
    for file in files {
        copies.push(String::from_str(alloc, file)?)?;
    }
    Ok(copies)
}
