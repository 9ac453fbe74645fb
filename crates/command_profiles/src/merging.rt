// The merge of the profiles that a command reads, and the lines that say why they have none.
ghost use Rattle.std.specs.Prelude.{◌≡◌, ◌<◌, ◌≤◌, ◌^◌, ◌∷◌, ◌++◌, [], IfErr, IfOk, codes, decimal, length};
ghost use Rattle.pgo_shell.specs.Product.{RefusedBy};
ghost use Rattle.command_profiles.specs.Merging.{OfProfiles, merge_line, merged, numbers_line};
ghost use Rattle.command_profiles.specs.Says.{SaysMerge};

use pgo_base::NoMemory;
use pgo_shell::Refusal;
use prof_merge::{MergeInputs, any_inputs, merge};
use prof_text::{MergeError, Profile, any_order};
use prof_view::ProfileView;
use push_text::{push, push_number};
use std::alloc::Global;
use std::thread::Threads;

/// The merge of profiles, by so many workers. Profiles that have none are refused: two differ in mode, or two records of
/// one name and hash differ in their numbers of counters or of sites.
pub fn merged<R: Threads + Sync>(
    rt: &R,
    alloc: Global,
    inputs: &MergeInputs<'_>,
    workers: u32,
) -> Result<Profile, Refusal>
    requires some { 0 < length inputs.now }
    requires few { length inputs.now < 2 ^ 32 }
    requires workers { (0 < workers) × (workers ≤ 64) }
    ensures found { IfOk result (λ p. (merged inputs.now).finds p) }
    ensures refuses { IfErr result (RefusedBy (merged inputs.now)) }
{
    any_inputs();
    any_order();
    match merge(rt, alloc, inputs, workers) {
        Ok(profile) => Ok(profile),
        Err(error) => Err(refused_merge(alloc, error)),
    }
}

/// The merge of one profile.
pub fn merged_alone<R: Threads + Sync>(
    rt: &R,
    alloc: Global,
    view: ProfileView<'_>,
) -> Result<Profile, Refusal>
    ensures found { IfOk result (λ p. (merged (view.entry ∷ [])).finds p) }
    ensures refuses { IfErr result (RefusedBy (merged (view.entry ∷ []))) }
{
    let mut inputs = MergeInputs::new(alloc);
    inputs.add(view)?;
    merged(rt, alloc, &inputs, 1)
}

// The refusal of profiles that have no merge.
fn refused_merge(alloc: Global, error: MergeError) -> Refusal
    ensures { SaysMerge error result }
{
    match merge_line(alloc, error) {
        Ok(line) => Refusal::Text { line },
        Err(NoMemory) => Refusal::NoMemory,
    }
}

fn merge_line(alloc: Global, error: MergeError) -> Result<Vec<u8>, NoMemory>
    ensures of { IfOk result (λ line. OfProfiles error) }
    ensures line { IfOk result (λ line. line.items ≡ merge_line error) }
{
    match error {
        MergeError::CounterMismatch {
            name,
            hash,
            first,
            other,
        } => numbers_line(alloc, name.as_slice(), hash, first, other, b" counters"),
        MergeError::SiteMismatch {
            name,
            hash,
            first,
            other,
        } => numbers_line(alloc, name.as_slice(), hash, first, other, b" sites"),
        MergeError::HeaderMismatch { input, .. } => input_line(alloc, input),
        MergeError::NoMemory => Err(NoMemory),
    }
}

// The two numbers in which a name and a hash differ.
fn numbers_line(
    alloc: Global,
    name: &[u8],
    hash: u64,
    first: u32,
    other: u32,
    what: &[u8],
) -> Result<Vec<u8>, NoMemory>
    ensures { IfOk result (λ line. line.items ≡ numbers_line name.now hash first other what.now) }
{
    let mut line = Vec::new(alloc);
    push(&mut line, b"merge: ")?;
    push(&mut line, name)?;
    push(&mut line, b" ")?;
    push_number(&mut line, hash)?;
    push(&mut line, b" has ")?;
    push_number(&mut line, u64::from(first))?;
    push(&mut line, b" and ")?;
    push_number(&mut line, u64::from(other))?;
    push(&mut line, what)?;
    Ok(line)
}

// The profile whose mode is not that of the first.
fn input_line(alloc: Global, input: u32) -> Result<Vec<u8>, NoMemory>
    ensures { IfOk result (λ line. line.items ≡ codes "merge: input " ++ decimal input ++ codes " differs in entry_first") }
{
    let mut line = Vec::new(alloc);
    push(&mut line, b"merge: input ")?;
    push_number(&mut line, u64::from(input))?;
    push(&mut line, b" differs in entry_first")?;
    Ok(line)
}
