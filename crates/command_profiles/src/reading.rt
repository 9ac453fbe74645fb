// The profiles that a command reads, and the lines that say why it has none.
ghost use Rattle.std.specs.Prelude.{◌≡◌, ◌<◌, ℕ, IfErr, IfOk, List, length, map, vec_len};
ghost use Rattle.pgo_shell.specs.Product.{RefusedBy, bytes_of_all};
ghost use Rattle.std.specs.Global.{Vec};
ghost use Rattle.std.specs.String.{string_bytes};
ghost use Rattle.command_profiles.specs.Each.{profiles};
ghost use Rattle.command_profiles.specs.ProfileText.{profile};
ghost use Rattle.command_profiles.specs.Says.{SaysProfile};
ghost use Rattle.prof_merge.specs.Reading.{AreReadings, IsReading};

use command_lines::{refused, refused_at};
use pgo_shell::Refusal;
use prof_merge::{MergeInputs, read_all};
use prof_view::{ProfileView, ViewError, one_profile};
use std::alloc::Global;
use std::thread::Threads;

/// The profile that a text is, as a view of the text. A text that is too long or that spells no profile is refused.
pub fn profile<'a>(alloc: Global, name: &str, text: &'a [u8]) -> Result<ProfileView<'a>, Refusal>
    ensures found { IfOk result (λ p. (profile name.now text.now).finds p) }
    ensures refuses { IfErr result (RefusedBy (profile name.now text.now)) }
{
    judged(alloc, name, ProfileView::read(alloc, text))
}

// What reading the text of a file answered, as the profile that the text is.
fn judged<'a>(
    alloc: Global,
    name: &str,
    answer: Result<ProfileView<'a>, ViewError>,
) -> Result<ProfileView<'a>, Refusal>
    ensures found { (text : List ℕ) → IsReading text answer.entry → IfOk result (λ p. (profile name.now text).finds p) }
    ensures refuses { (text : List ℕ) → IsReading text answer.entry → IfErr result (RefusedBy (profile name.now text)) }
{
    one_profile();
    match answer {
        Ok(view) => Ok(view),
        Err(error) => Err(refused_profile(alloc, name, error)),
    }
}

// The refusal of a profile's text.
fn refused_profile(alloc: Global, name: &str, error: ViewError) -> Refusal
    ensures { SaysProfile name.now error result }
{
    match error {
        ViewError::Syntax { line } => refused_at(alloc, name, b": syntax at line ", line),
        ViewError::TextLimit { .. } => refused(alloc, name, b": too long"),
        ViewError::NoMemory => Refusal::NoMemory,
    }
}

/// The profiles that the texts of files are, in order, read by 1 to 64 workers. The first text that is none is refused.
pub fn profiles<'a, R: Threads + Sync>(
    rt: &R,
    alloc: Global,
    names: &[String],
    texts: &'a [Vec<u8>],
    workers: u32,
) -> Result<MergeInputs<'a>, Refusal>
    requires names { length texts.now ≡ length names.now }
    requires workers { 0 < workers }
    ensures count { IfOk result (λ ps. length ps ≡ length names.now) }
    ensures found { IfOk result (λ ps. (profiles (map string_bytes names.now) (bytes_of_all texts.now)).finds ps) }
    ensures refuses { IfErr result (RefusedBy (profiles (map string_bytes names.now) (bytes_of_all texts.now))) }
{
    let answers = read_all(rt, alloc, texts, workers)?;
    collected(alloc, names, answers)
}

// The profiles that were read from the texts of files, in order. The first text that is none is refused.
fn collected<'a>(
    alloc: Global,
    names: &[String],
    answers: Vec<Result<ProfileView<'a>, ViewError>>,
) -> Result<MergeInputs<'a>, Refusal>
    requires { vec_len answers ≡ length names.now }
    ensures count { IfOk result (λ ps. length ps ≡ length names.now) }
    ensures found { (texts : List (Vec ℕ)) → AreReadings texts answers.entry.items → IfOk result (λ ps. (profiles (map string_bytes names.now) (bytes_of_all texts)).finds ps) }
    ensures refuses { (texts : List (Vec ℕ)) → AreReadings texts answers.entry.items → IfErr result (RefusedBy (profiles (map string_bytes names.now) (bytes_of_all texts))) }
{
    let mut inputs = MergeInputs::new(alloc);
    for answer in answers {
        let place = inputs.len();
        inputs.add(judged(alloc, &names[place], answer)?)?;
    }
    Ok(inputs)
}
