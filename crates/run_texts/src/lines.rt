// The lines of the sites of a run.
ghost use Rattle.std.specs.Prelude.{◌≡◌, ◌++◌, IfOk, OnOk};
ghost use Rattle.std.specs.List.{flat_map};
ghost use Rattle.run_texts.specs.SiteLines as spec;

use crate::parts::part;
use ir_model::Tally;
use pgo_base::NoMemory;
use push_text::{push, push_number};
use std::alloc::Global;
use value_rows::Row;

#[tactic(auto, unfolding(crate::specs::SiteLines::site_line))]
fn push_line(text: &mut Vec<u8>, name: &[u8], site: usize, row: &Row) -> Result<(), NoMemory>
    ensures { OnOk result (text.new.items ≡ text.old.items ++ spec.site_line name.now site row.now) }
{
    push(text, b"site ")?;
    push(text, name)?;
    push(text, b" ")?;
    push_number(text, site as u64)?;
    push(text, b" kept ")?;
    push_number(text, row.kept.len() as u64)?;
    push(text, b" dropped ")?;
    push_number(text, row.dropped)?;
    push(text, b"\n")
}

fn push_lines(text: &mut Vec<u8>, name: &[u8], rows: &[Row]) -> Result<(), NoMemory>
    ensures { OnOk result (text.new.items ≡ text.old.items ++ spec.lines_from name.now 0 rows.now) }
{
    for (site, row) in rows.iter().enumerate() {
        push_line(text, name, site, row)?;
    }
    Ok(())
}

fn push_tally(text: &mut Vec<u8>, tally: &Tally, rows: &[Row]) -> Result<(), NoMemory>
    ensures { OnOk result (text.new.items ≡ text.old.items ++ spec.tally_lines rows.now tally.now) }
{
    push_lines(
        text,
        tally.name.as_slice(),
        part(rows, tally.first_site, tally.sites),
    )
}

/// A line for each site of each tally, in order: how many keys its row keeps, and how often another key was asked for.
pub fn site_lines(alloc: Global, tallies: &[Tally], rows: &[Row]) -> Result<Vec<u8>, NoMemory>
    ensures { IfOk result (λ text. text.items ≡ spec.site_lines tallies.now rows.now) }
{
    let mut text = Vec::new(alloc);
    for tally in tallies {
        push_tally(&mut text, tally, rows)?;
    }
    Ok(text)
}
