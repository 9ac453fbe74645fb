// The program and the calls that a command reads, and the lines that say why it has none.
ghost use Rattle.std.specs.Prelude.{◌≡◌, ◌≢◌, IfErr, IfOk};
ghost use Rattle.ir_rules.specs.Accepted.{IsAccepted};
ghost use Rattle.ir_model.specs.Run.{IsValidCallList};
ghost use Rattle.ir_rules.specs.Kinds.{kind_of};
ghost use Rattle.ir_rules.specs.declared.place.Kind.TheVariants.{Plain};
ghost use Rattle.ir_tree.specs.declared.types.Module.{Module};
ghost use Rattle.pgo_shell.specs.Product.{RefusedBy};
ghost use Rattle.command_texts.specs.Calls.{MakesCalls, calls_on};
ghost use Rattle.command_texts.specs.Program.{is_plain, program, runs_as_it_is};
ghost use Rattle.command_texts.specs.Says.{SaysCalls, SaysNotAccepted};

use crate::reasons::refused_module;
use call_list::{CallsError, read_calls};
use command_lines::{refused, refused_at};
use ir_check::{Checked, Kind, check};
use ir_machine::{Code, ResolveError, resolve};
use ir_model::Call;
use ir_read::{ReadError, read};
use ir_rules::well_formed_breaks_none;
use ir_tree::Module;
use pgo_shell::Refusal;
use std::alloc::Global;

/// The program that a module's text is. A text that is too long, or that spells no accepted module, is refused.
pub fn program(alloc: Global, name: &str, text: &[u8]) -> Result<Checked, Refusal>
    ensures found { IfOk result (λ m. (program name.now text.now).finds m) }
    ensures refuses { IfErr result (RefusedBy (program name.now text.now)) }
{
    match read(alloc, text) {
        Ok(module) => accepted(alloc, name, module),
        Err(ReadError::Syntax { at }) => Err(refused_at(
            alloc,
            name,
            b": syntax at byte ",
            at as u32,
        )),
        Err(ReadError::TextLimit { .. }) => Err(refused(alloc, name, b": too long")),
        Err(ReadError::NoMemory) => Err(Refusal::NoMemory),
    }
}

/// The code of a program. One that counts by intrinsics is refused.
pub fn code<'a>(alloc: Global, name: &str, module: &'a Checked) -> Result<Code<'a>, Refusal>
    ensures code { IfOk result (λ code. code ≡ «module».now) }
    ensures found { IfOk result (λ _. (runs_as_it_is name.now «module».now).finds tt) }
    ensures refuses { IfErr result (RefusedBy (runs_as_it_is name.now «module».now)) }
{
    match resolve(alloc, module) {
        Ok(code) => Ok(code),
        Err(ResolveError::NoMemory) => Err(Refusal::NoMemory),
        Err(ResolveError::WrongKind) => Err(refused(alloc, name, b": wrong kind counted")),
    }
}

/// The refusal of a program that is not plain, by its kind.
pub fn wrong_kind(alloc: Global, name: &str, module: &Checked) -> Refusal
    requires { kind_of «module».now.functions ≢ Plain }
    ensures { RefusedBy (is_plain name.now «module».now) result }
{
    match module.kind() {
        Kind::Plain | Kind::Counted => refused(alloc, name, b": wrong kind counted"),
        Kind::Lowered => refused(alloc, name, b": wrong kind lowered"),
    }
}

/// The code of a plain program. One of another kind is refused.
pub fn plain_code<'a>(alloc: Global, name: &str, module: &'a Checked) -> Result<Code<'a>, Refusal>
    ensures code { IfOk result (λ code. code ≡ «module».now) }
    ensures found { IfOk result (λ _. (is_plain name.now «module».now).finds tt) }
    ensures refuses { IfErr result (RefusedBy (is_plain name.now «module».now)) }
{
    match module.kind() {
        Kind::Plain => {}
        Kind::Counted | Kind::Lowered => return Err(wrong_kind(alloc, name, module)),
    }
    match resolve(alloc, module) {
        Ok(code) => Ok(code),
        // The kind was looked at above, so that only memory can be wanting.
        Err(ResolveError::NoMemory | ResolveError::WrongKind) => Err(Refusal::NoMemory),
    }
}

/// The calls that a calls text makes on a program.
pub fn calls(alloc: Global, name: &str, module: &Checked, text: &[u8]) -> Result<Vec<Call>, Refusal>
    ensures found { IfOk result (λ calls. (calls_on name.now «module».now text.now).finds calls.items) }
    ensures valid { IfOk result (λ calls. IsValidCallList «module».now calls.items) }
    ensures refuses { IfErr result (RefusedBy (calls_on name.now «module».now text.now)) }
{
    match read_calls(alloc, module, text) {
        Ok(calls) => Ok(calls),
        Err(error) => Err(refused_calls(alloc, name, error)),
    }
}

// The module, if it is accepted.
fn accepted(alloc: Global, name: &str, module: Module) -> Result<Checked, Refusal>
    ensures found { IfOk result (λ m. (m ≡ «module») × IsAccepted m) }
    ensures refused { IfErr result (λ refusal. SaysNotAccepted name.now «module» refusal) }
{
    well_formed_breaks_none();
    match check(alloc, module) {
        Ok(checked) => Ok(checked),
        Err(error) => Err(refused_module(alloc, name, error.why)),
    }
}

// The refusal of a calls text.
fn refused_calls(alloc: Global, name: &str, error: CallsError) -> Refusal
    ensures { SaysCalls name.now error result }
{
    match error {
        CallsError::BadLine { line } => refused_at(alloc, name, b": bad line ", line),
        CallsError::NoFunction { line } => refused_at(alloc, name, b": no function in line ", line),
        CallsError::BadArgs { line } => refused_at(alloc, name, b": bad arguments in line ", line),
        CallsError::TooMany { .. } => refused(alloc, name, b": too many calls"),
        CallsError::TextLimit { .. } => refused(alloc, name, b": too long"),
        CallsError::NoMemory => Refusal::NoMemory,
    }
}
