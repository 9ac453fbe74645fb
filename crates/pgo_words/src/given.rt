// What the words behind a command give.
ghost use Rattle.std.specs.Prelude.{◌≡◌, IfOk};
ghost use Rattle.clap.specs.Words.{found_of};
ghost use Rattle.pgo_words.specs.Values.{found_under, given_in, given_value, texts_of};

use clap::ArgMatches;
use std::alloc::{AllocError, Global};

/// The words behind a command: its files and numbers, and what was given for each option, in order.
#[derive(Drop)]
pub struct Given<'a> {
    pub files: Vec<&'a str>,
    pub steps: Vec<&'a str>,
    pub workers: Vec<&'a str>,
    pub profile: Vec<&'a str>,
    pub entry_first: Vec<&'a str>,
    pub places: Vec<&'a str>,
    pub room: Vec<&'a str>,
    pub peel: Vec<&'a str>,
}

/// What clap's matches give.
pub fn given_of<'a>(alloc: Global, matches: &ArgMatches<'a>) -> Result<Given<'a>, AllocError>
    ensures { IfOk result (λ given. given_value given ≡ given_in (found_of matches.now)) }
{
    Ok(Given {
        files: texts(alloc, matches, "FILE")?,
        steps: texts(alloc, matches, "steps")?,
        workers: texts(alloc, matches, "workers")?,
        profile: texts(alloc, matches, "profile")?,
        entry_first: texts(alloc, matches, "entry-first")?,
        places: texts(alloc, matches, "places")?,
        room: texts(alloc, matches, "room")?,
        peel: texts(alloc, matches, "peel")?,
    })
}

// The texts that were given for an id, in order.
fn texts<'a>(alloc: Global, matches: &ArgMatches<'a>, id: &str) -> Result<Vec<&'a str>, AllocError>
    ensures { IfOk result (λ texts. texts_of texts.items ≡ found_under (found_of matches.now) id.now) }
{
    match matches.get_raw(id) {
        Some(texts) => Vec::from_slice(alloc, texts),
        None => Ok(Vec::new(alloc)),
    }
}
