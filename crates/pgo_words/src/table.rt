// The plan of each command.
ghost use Rattle.std.specs.Prelude.{◌≡◌, IfOk, IsErrOf, None, Some};
ghost use Rattle.pgo_words.specs.Plan.{plan_value, stream_value, words_of};
ghost use Rattle.pgo_words.specs.Table.{plan_behind, plan_by, planned, stream_behind, stream_by, stream_planned};
ghost use Rattle.pgo_words.specs.Values.{given_value};

use crate::command::{CommandName, command_named};
use crate::commands::{plan_in, stream_in};
use crate::files::are_named;
use crate::given::{Given, given_of};
use crate::parting::matches_of;
use crate::{Plan, StreamPlan, WordsError};
use std::alloc::Global;

/// The plan that the words give: the first is the command, the others are its files, numbers and options. `Usage` comes
/// exactly where the words give none.
pub fn plan_of(alloc: Global, words: &[String]) -> Result<Plan, WordsError>
    ensures plan { IfOk result (λ p. planned (words_of words.now) ≡ Some (plan_value p)) }
    ensures usage { IsErrOf result WordsError.Usage → planned (words_of words.now) ≡ None }
{
    match words {
        [] => Err(WordsError::Usage),
        [word, rest @ ..] => match command_named(word) {
            None => Err(WordsError::Usage),
            Some(command) => plan_behind(alloc, command, rest),
        },
    }
}

/// The plan that the words give for the command `stream`. `Usage` comes exactly where they give none.
pub fn stream_plan_of(alloc: Global, words: &[String]) -> Result<StreamPlan, WordsError>
    ensures plan { IfOk result (λ p. stream_planned (words_of words.now) ≡ Some (stream_value p)) }
    ensures usage { IsErrOf result WordsError.Usage → stream_planned (words_of words.now) ≡ None }
{
    match words {
        [word, rest @ ..] if word.as_str() == "stream" => stream_behind(alloc, rest),
        _ => Err(WordsError::Usage),
    }
}

// The plan of a command with the words behind it.
fn plan_behind(alloc: Global, command: CommandName, words: &[String]) -> Result<Plan, WordsError>
    ensures plan { IfOk result (λ p. plan_behind command (words_of words.now) ≡ Some (plan_value p)) }
    ensures usage { IsErrOf result WordsError.Usage → plan_behind command (words_of words.now) ≡ None }
{
    let matches = matches_of(alloc, words)?;
    let given = given_of(alloc, &matches)?;
    plan_by(alloc, command, &given)
}

fn stream_behind(alloc: Global, words: &[String]) -> Result<StreamPlan, WordsError>
    ensures plan { IfOk result (λ p. stream_behind (words_of words.now) ≡ Some (stream_value p)) }
    ensures usage { IsErrOf result WordsError.Usage → stream_behind (words_of words.now) ≡ None }
{
    let matches = matches_of(alloc, words)?;
    let given = given_of(alloc, &matches)?;
    stream_by(alloc, &given)
}

// The plan of a command, where all its files are named.
fn plan_by(alloc: Global, command: CommandName, given: &Given<'_>) -> Result<Plan, WordsError>
    ensures plan { IfOk result (λ p. plan_by command (given_value given.now) ≡ Some (plan_value p)) }
    ensures usage { IsErrOf result WordsError.Usage → plan_by command (given_value given.now) ≡ None }
{
    if !are_named(&given.files) {
        return Err(WordsError::Usage);
    }
    plan_in(alloc, command, given)
}

fn stream_by(alloc: Global, given: &Given<'_>) -> Result<StreamPlan, WordsError>
    ensures plan { IfOk result (λ p. stream_by (given_value given.now) ≡ Some (stream_value p)) }
    ensures usage { IsErrOf result WordsError.Usage → stream_by (given_value given.now) ≡ None }
{
    if !are_named(&given.files) {
        return Err(WordsError::Usage);
    }
    stream_in(alloc, given)
}
