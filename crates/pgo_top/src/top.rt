// The top call.
ghost use Rattle.std.specs.Prelude.{◌≡◌, ◌⊎◌, IfOk, IsErrOf, Some, None, codes};
ghost use Rattle.command_chain.specs.Chain.{ChainStands};
ghost use Rattle.command_check.specs.Check.{CheckStands};
ghost use Rattle.command_gen.specs.Gen.{GenStands};
ghost use Rattle.command_lower.specs.Lower.{LowerStands};
ghost use Rattle.command_merge.specs.Merge.{MergeStands};
ghost use Rattle.command_print.specs.Print.{PrintStands};
ghost use Rattle.command_run.specs.Run.{RunStands};
ghost use Rattle.command_show.specs.Show.{ShowStands};
ghost use Rattle.pgo_shell.specs.Ended.{Ended};
ghost use Rattle.pgo_shell.specs.Promises.{Promises};
ghost use Rattle.pgo_shell.specs.Shell.{Front, error_line};
ghost use Rattle.pgo_shell.specs.World.{world};
ghost use Rattle.pgo_top.specs.Asked.{AsksChain, AsksCheck, AsksGen, AsksLower, AsksMerge, AsksPrint, AsksRun, AsksShow, asked, task_of, usage_line};
ghost use Rattle.pgo_top.specs.Built.{asked_value};
ghost use Rattle.pgo_words.specs.Plan.{words_of};

use crate::built::{Built, command_for};
use command_gen::plain_modules_are_made;
use command_lower::modules_are_lowered;
use pgo_base::{Gate, Sink, Store};
use pgo_shell::{Status, perform, say};
use pgo_words::{WordsError, plan_of};
use std::alloc::Global;
use std::thread::Threads;

/// Runs the command that the words ask for over the files of `store`, with its output to `out` and a line on `err` for
/// each status but `Done`.
///
/// `Words` comes exactly where the words ask for no command that is built. Every other status is that of the command's
/// end: what its files hold decides it, unless a file or the output fails (`Outside`) or memory runs out (`Memory`).
pub fn pgo<R: Threads + Sync, S: Store, O: Sink, E: Sink, G: Gate + Sync>(
    rt: &R,
    alloc: Global,
    words: &[String],
    store: &mut S,
    out: &mut O,
    err: &mut E,
    gate: &G,
) -> Status
    // Where the words ask for no command, nothing is touched.
    ensures words { asked (words_of words.now) ≡ None → (result ≡ Status.Words) ⊎ (result ≡ Status.Memory) }
    ensures command { result ≡ Status.Words → asked (words_of words.now) ≡ None }
    ensures store_stays { asked (words_of words.now) ≡ None → store.new ≡ store.old }
    ensures out_stays { asked (words_of words.now) ≡ None → out.new ≡ out.old }
    ensures usage { result ≡ Status.Words → E.tells err.old → Front usage_line (E.bytes err.old) (E.bytes err.new) }
    // One end ties the status of a command, what stands after it, its cause and its line; then what each promises.
    ensures ended { (c : _) → asked (words_of words.now) ≡ Some c → Ended (task_of c)
        (world S.Store O.Sink store.old out.old) (world S.Store O.Sink store.new out.new)
        (E.tells err.old) (E.bytes err.old) (E.bytes err.new) result }
    ensures promises { (c : _) → asked (words_of words.now) ≡ Some c → Promises (task_of c)
        (world S.Store O.Sink store.old out.old) (world S.Store O.Sink store.new out.new) result }
    // After a `check` that is `Done`: the kind of the program.
    ensures check { (f : _) → asked (words_of words.now) ≡ Some (AsksCheck f) → result ≡ Status.Done →
        S.tells store.old →
        CheckStands f (world S.Store O.Sink store.old out.old) (world S.Store O.Sink store.new out.new) }
    // After a `print` that is `Done`: the canonical text of the program.
    ensures print { (f : _) → asked (words_of words.now) ≡ Some (AsksPrint f) → result ≡ Status.Done →
        S.tells store.old →
        PrintStands f (world S.Store O.Sink store.old out.old) (world S.Store O.Sink store.new out.new) }
    // After a `gen` that is `Done`: its file holds the module that counts the program, which is accepted and behaves as the program.
    ensures counts { (f : _) → asked (words_of words.now) ≡ Some (AsksGen f) → result ≡ Status.Done →
        S.tells store.old →
        GenStands f (world S.Store O.Sink store.old out.old) (world S.Store O.Sink store.new out.new) }
    // After a `lower` that is `Done`: its file holds the lowered form of the program, which is accepted and runs as the program.
    ensures lower { (f : _) → asked (words_of words.now) ≡ Some (AsksLower f) → result ≡ Status.Done →
        S.tells store.old →
        LowerStands f (world S.Store O.Sink store.old out.old) (world S.Store O.Sink store.new out.new) }
    // After a `run` that is `Done`: the outcomes of its calls on the program, all of them returned, what its sites kept, and its
    // profile where one was asked for.
    ensures run { (f : _) → asked (words_of words.now) ≡ Some (AsksRun f) → result ≡ Status.Done →
        S.tells store.old →
        RunStands f (world S.Store O.Sink store.old out.old) (world S.Store O.Sink store.new out.new) }
    // After a `chain` that is `Done`: these outcomes, and then the report, in which each edge of each defined function
    // has the number of times that the calls' runs walk it.
    ensures chain { (f : _) → asked (words_of words.now) ≡ Some (AsksChain f) → result ≡ Status.Done →
        S.tells store.old →
        ChainStands f (world S.Store O.Sink store.old out.old) (world S.Store O.Sink store.new out.new) }
    // After a `merge` that is `Done`: its file holds the text of the merge of the profiles.
    ensures merge { (f : _) → asked (words_of words.now) ≡ Some (AsksMerge f) → result ≡ Status.Done →
        S.tells store.old →
        MergeStands f (world S.Store O.Sink store.old out.old) (world S.Store O.Sink store.new out.new) }
    // After a `show` that is `Done`: the totals of the profile.
    ensures show { (f : _) → asked (words_of words.now) ≡ Some (AsksShow f) → result ≡ Status.Done →
        S.tells store.old →
        ShowStands f (world S.Store O.Sink store.old out.old) (world S.Store O.Sink store.new out.new) }
{
    plain_modules_are_made();
    modules_are_lowered();
    perform_words(rt, alloc, words, store, out, err, gate)
}

// The same, with what holds of every command.
fn perform_words<R: Threads + Sync, S: Store, O: Sink, E: Sink, G: Gate + Sync>(
    rt: &R,
    alloc: Global,
    words: &[String],
    store: &mut S,
    out: &mut O,
    err: &mut E,
    gate: &G,
) -> Status
    ensures words { asked (words_of words.now) ≡ None → (result ≡ Status.Words) ⊎ (result ≡ Status.Memory) }
    ensures command { result ≡ Status.Words → asked (words_of words.now) ≡ None }
    ensures store_stays { asked (words_of words.now) ≡ None → store.new ≡ store.old }
    ensures out_stays { asked (words_of words.now) ≡ None → out.new ≡ out.old }
    ensures usage { result ≡ Status.Words → E.tells err.old → Front usage_line (E.bytes err.old) (E.bytes err.new) }
    ensures ended { (c : _) → asked (words_of words.now) ≡ Some c → Ended (task_of c)
        (world S.Store O.Sink store.old out.old) (world S.Store O.Sink store.new out.new)
        (E.tells err.old) (E.bytes err.old) (E.bytes err.new) result }
    ensures promises { (c : _) → asked (words_of words.now) ≡ Some c → Promises (task_of c)
        (world S.Store O.Sink store.old out.old) (world S.Store O.Sink store.new out.new) result }
{
    match command_of(alloc, words) {
        Ok(command) => perform(rt, alloc, &command, store, out, err, gate),
        Err(WordsError::Usage) => usage(err),
        Err(WordsError::NoMemory) => no_memory(err),
    }
}

// The command that the words ask for.
fn command_of(alloc: Global, words: &[String]) -> Result<Built, WordsError>
    ensures command { IfOk result (λ c. asked (words_of words.now) ≡ Some (asked_value c)) }
    ensures usage { IsErrOf result WordsError.Usage → asked (words_of words.now) ≡ None }
{
    let plan = plan_of(alloc, words)?;
    match command_for(plan) {
        Some(command) => Ok(command),
        None => Err(WordsError::Usage),
    }
}

/// Says how the program is used, and answers `Words`.
pub fn usage<E: Sink>(err: &mut E) -> Status
    ensures status { result ≡ Status.Words }
    ensures line { E.tells err.old → Front usage_line (E.bytes err.old) (E.bytes err.new) }
{
    say(err, b"usage: pgo COMMAND ARGUMENTS", b"");
    Status::Words
}

/// Says that there was no memory, and answers `Memory`.
pub fn no_memory<E: Sink>(err: &mut E) -> Status
    ensures status { result ≡ Status.Memory }
    ensures line { E.tells err.old → Front (error_line (codes "out of memory")) (E.bytes err.old) (E.bytes err.new) }
{
    say(err, b"out of memory", b"");
    Status::Memory
}
