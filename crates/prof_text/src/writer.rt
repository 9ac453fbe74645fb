// The text of a profile.
ghost use Rattle.std.specs.Prelude.{◌≡◌, ◌++◌, List, codes, decimal, OnOk, IfOk};
ghost use Rattle.std.specs.List.{flat_map};
ghost use Rattle.prof_text.specs.Record.{value_of, values_of};
ghost use Rattle.prof_text.specs.Text.{number_line, target_line, site_text, sites_text, function_text, counters_text, record_text, header_text, profile_text};

use crate::profile::Profile;
use crate::record::{ProfRecord, Target};
use itoa::Buffer;
use pgo_base::NoMemory;
use seq::Seq;
use std::alloc::Global;

fn push(out: &mut Vec<u8>, bytes: &[u8]) -> Result<(), NoMemory>
    ensures { OnOk result (out.new.items ≡ out.old.items ++ bytes.now) }
{
    out.extend_from_slice(bytes)?;
    Ok(())
}

fn push_number(out: &mut Vec<u8>, number: u64) -> Result<(), NoMemory>
    ensures { OnOk result (out.new.items ≡ out.old.items ++ decimal number) }
{
    let mut buffer = Buffer::new();
    push(out, buffer.format(number).as_bytes())
}

#[tactic(auto, unfolding(crate::specs::Text::number_line))]
fn push_number_line(out: &mut Vec<u8>, number: u64) -> Result<(), NoMemory>
    ensures { OnOk result (out.new.items ≡ out.old.items ++ number_line number) }
{
    push_number(out, number)?;
    push(out, b"\n")
}

fn push_counters(out: &mut Vec<u8>, counters: &[u64]) -> Result<(), NoMemory>
    ensures { OnOk result (out.new.items ≡ out.old.items ++ flat_map number_line counters.now) }
{
    for counter in counters {
        push_number_line(out, *counter)?;
    }
    Ok(())
}

#[tactic(auto, unfolding(crate::specs::Text::target_line))]
fn push_target(out: &mut Vec<u8>, target: &Target) -> Result<(), NoMemory>
    ensures { OnOk result (out.new.items ≡ out.old.items ++ target_line target.now) }
{
    push(out, target.0.as_slice())?;
    push(out, b":")?;
    push_number(out, target.1)?;
    push(out, b"\n")
}

fn push_targets(out: &mut Vec<u8>, targets: &[Target]) -> Result<(), NoMemory>
    ensures { OnOk result (out.new.items ≡ out.old.items ++ flat_map target_line targets.now) }
{
    for target in targets {
        push_target(out, target)?;
    }
    Ok(())
}

#[tactic(auto, unfolding(crate::specs::Text::site_text))]
fn push_site(out: &mut Vec<u8>, targets: &[Target]) -> Result<(), NoMemory>
    ensures { OnOk result (out.new.items ≡ out.old.items ++ site_text targets.now) }
{
    push_number_line(out, targets.len() as u64)?;
    push_targets(out, targets)
}

fn push_each_site(out: &mut Vec<u8>, sites: &[Seq<Target>]) -> Result<(), NoMemory>
    ensures { OnOk result (out.new.items ≡ out.old.items ++ flat_map site_text sites.now) }
{
    for site in sites {
        push_site(out, site.as_slice())?;
    }
    Ok(())
}

#[tactic(auto, unfolding(crate::specs::Text::sites_text))]
fn push_sites(out: &mut Vec<u8>, sites: &[Seq<Target>]) -> Result<(), NoMemory>
    ensures { OnOk result (out.new.items ≡ out.old.items ++ sites_text sites.now) }
{
    if sites.is_empty() {
        return Ok(());
    }
    push(
        out,
        b"# Num Value Kinds:\n1\n# ValueKind = IPVK_IndirectCallTarget:\n0\n# NumValueSites:\n",
    )?;
    push_number_line(out, sites.len() as u64)?;
    push_each_site(out, sites)
}

fn push_blank_line(out: &mut Vec<u8>) -> Result<(), NoMemory>
    ensures { OnOk result (out.new.items ≡ out.old.items ++ codes "\n") }
{
    push(out, b"\n")
}

#[tactic(auto, unfolding(crate::specs::Text::function_text))]
fn push_function(out: &mut Vec<u8>, name: &[u8], hash: u64) -> Result<(), NoMemory>
    ensures { OnOk result (out.new.items ≡ out.old.items ++ function_text name.now hash) }
{
    push(out, name)?;
    push(out, b"\n# Func Hash:\n")?;
    push_number_line(out, hash)
}

#[tactic(auto, unfolding(crate::specs::Text::counters_text))]
fn push_all_counters(out: &mut Vec<u8>, counters: &[u64]) -> Result<(), NoMemory>
    ensures { OnOk result (out.new.items ≡ out.old.items ++ counters_text counters.now) }
{
    push(out, b"# Num Counters:\n")?;
    push_number_line(out, counters.len() as u64)?;
    push(out, b"# Counter Values:\n")?;
    push_counters(out, counters)
}

#[tactic(auto, unfolding(crate::specs::Text::record_text))]
fn push_record(out: &mut Vec<u8>, owned: &ProfRecord) -> Result<(), NoMemory>
    ensures { OnOk result (out.new.items ≡ out.old.items ++ record_text (value_of owned.now)) }
{
    push_function(out, owned.name.as_slice(), owned.hash)?;
    push_all_counters(out, owned.counters.as_slice())?;
    push_sites(out, owned.sites.as_slice())?;
    push_blank_line(out)
}

fn push_records(out: &mut Vec<u8>, records: &[ProfRecord]) -> Result<(), NoMemory>
    ensures { OnOk result (out.new.items ≡ out.old.items ++ flat_map record_text (values_of records.now)) }
{
    for record in records {
        push_record(out, record)?;
    }
    Ok(())
}

fn push_header(out: &mut Vec<u8>, entry_first: bool) -> Result<(), NoMemory>
    ensures { OnOk result (out.new.items ≡ out.old.items ++ header_text entry_first) }
{
    if entry_first {
        push(out, b":ir\n:entry_first\n")
    } else {
        push(out, b":ir\n")
    }
}

/// The text of a profile, as LLVM's text profiles have it (`llvm-profdata merge --text`): a header, and for each record
/// its name, its hash, its counters, its sites where it has any, and an empty line.
#[tactic(auto, unfolding(crate::specs::Text::profile_text))]
pub fn write(alloc: Global, profile: &Profile) -> Result<Vec<u8>, NoMemory>
    ensures { IfOk result (λ text. text.items ≡ profile_text profile.now) }
{
    let mut out = Vec::new(alloc);
    push_header(&mut out, profile.entry_first())?;
    push_records(&mut out, profile.records())?;
    Ok(out)
}
