// Texts of modules, of their lowered forms, and of why they have none.
use gen_module::gen_module;
use instr_lower::{LowerError, lower};
use ir_check::{Checked, check};
use ir_print::print;
use ir_read::read;
use std::alloc::Global;
use std::test::Fail;

fn checked(alloc: Global, text: &[u8]) -> Result<Checked, Fail> {
    match check(alloc, read(alloc, text)?) {
        Ok(module) => Ok(module),
        Err(refused) => Err(refused.why.into()),
    }
}

fn printed(alloc: Global, module: &Checked) -> Result<String, Fail> {
    let mut out = Vec::new(alloc);
    print(alloc, &mut out, module.module())?;
    Ok(String::from_utf8(out)?)
}

// The text of the lowered form of a text's module.
pub(crate) fn lowered(alloc: Global, text: &[u8]) -> Result<String, Fail> {
    let counted = checked(alloc, text)?;
    printed(alloc, &lower(alloc, &counted)?)
}

// The text of the lowered form of the module that counts that of a text.
pub(crate) fn counted_and_lowered(alloc: Global, text: &[u8]) -> Result<String, Fail> {
    let plain = checked(alloc, text)?;
    let counted = gen_module(alloc, &plain, false)?;
    printed(alloc, &lower(alloc, &counted)?)
}

// What a refusal tells, with the name of the unit before it.
fn told(alloc: Global, error: LowerError) -> Result<String, Fail> {
    match error {
        LowerError::HashDiffers { name, first, other } => {
            let name = String::from_utf8(name.take())?;
            Ok(format!(in alloc; "{name}: hashes {first}, {other}")?)
        }
        LowerError::CountDiffers { name, first, other } => {
            let name = String::from_utf8(name.take())?;
            Ok(format!(in alloc; "{name}: numbers {first}, {other}")?)
        }
        LowerError::IndexPast { name, index, count } => {
            let name = String::from_utf8(name.take())?;
            Ok(format!(in alloc; "{name}: index {index} of {count}")?)
        }
        LowerError::NoIncrement { name } => {
            let name = String::from_utf8(name.take())?;
            Ok(format!(in alloc; "{name}: no increment")?)
        }
        other => Ok(format!(in alloc; "{other}")?),
    }
}

// Why the module of a text has no lowered form, an empty text where it has one.
pub(crate) fn refusal(alloc: Global, text: &[u8]) -> Result<String, Fail> {
    match lower(alloc, &checked(alloc, text)?) {
        Ok(_) => Ok(String::new(alloc)),
        Err(error) => told(alloc, error),
    }
}
