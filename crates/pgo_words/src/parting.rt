// Parting the words by clap.
ghost use Rattle.std.specs.Prelude.{◌≡◌, IfOk, IsErrOf, None, false};
ghost use Rattle.clap.specs.Words.{app_of, found_of, kind_of, rule_of, with_rule};
ghost use Rattle.pgo_words.specs.CommandLine.{bare_app, file_rule, option_rule, words_app};
ghost use Rattle.pgo_words.specs.Parts.{parts_of};
ghost use Rattle.pgo_words.specs.Plan.{words_of};
ghost use Rattle.pgo_words.specs.Values.{HasParts};

use crate::WordsError;
use clap::error::ErrorKind;
use clap::{Arg, ArgAction, ArgMatches, Command, Error};
use std::alloc::{AllocError, Global};

/// What clap finds in the words behind a command: their files and options. `Usage` comes exactly where they don't part.
pub fn matches_of<'a>(alloc: Global, words: &'a [String]) -> Result<ArgMatches<'a>, WordsError>
    ensures parted { IfOk result (λ m. HasParts (words_of words.entry.now) (found_of m)) }
    ensures usage { IsErrOf result WordsError.Usage → parts_of (words_of words.entry.now) ≡ None }
{
    let command = command(alloc)?;
    match command.try_get_matches_from(words) {
        Ok(matches) => Ok(matches),
        Err(error) => Err(words_error(&error)),
    }
}

// Want of memory, or words that don't part.
fn words_error(error: &Error) -> WordsError
    ensures memory { kind_of error.now ≡ ErrorKind.OutOfMemory → result ≡ WordsError.NoMemory }
    ensures usage { result ≡ WordsError.Usage → kind_of error.now ≡ ErrorKind.OutOfMemory → ⊥ }
{
    match error.kind() {
        ErrorKind::OutOfMemory => WordsError::NoMemory,
        _ => WordsError::Usage,
    }
}

// The command line: files, and the options of the program, each as often as it comes.
fn command<'a>(alloc: Global) -> Result<Command<'a>, AllocError>
    ensures { IfOk result (λ c. app_of c ≡ words_app) }
{
    let files = bare(alloc).arg(files(alloc))?;
    let steps = files.arg(option(alloc, "steps", 1))?;
    let workers = steps.arg(option(alloc, "workers", 1))?;
    let profile = workers.arg(option(alloc, "profile", 1))?;
    let entry_first = profile.arg(option(alloc, "entry-first", 0))?;
    let places = entry_first.arg(option(alloc, "places", 1))?;
    let room = places.arg(option(alloc, "room", 1))?;
    room.arg(option(alloc, "peel", 1))
}

// A command line without arguments, help or version.
fn bare<'a>(alloc: Global) -> Command<'a>
    ensures { app_of result ≡ bare_app }
{
    Command::new(alloc, "pgo")
        .no_binary_name(true)
        .disable_help_flag(true)
        .disable_version_flag(true)
}

// The words that are files or numbers.
fn files<'a>(alloc: Global) -> Arg<'a>
    ensures rule { rule_of result ≡ file_rule }
    ensures local { result.global ≡ false }
{
    Arg::new(alloc, "FILE").action(ArgAction::Append)
}

// An option with so many values.
fn option<'a>(alloc: Global, name: &'a str, values: usize) -> Arg<'a>
    ensures rule { rule_of result ≡ option_rule name.entry.now values }
    ensures local { result.global ≡ false }
{
    Arg::new(alloc, name)
        .long(name)
        .action(ArgAction::Append)
        .num_args(values)
        .default_missing_value("")
}
