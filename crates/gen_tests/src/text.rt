// Texts of modules, and of the modules that count them.
use gen_module::{GenError, gen_module};
use ir_check::{Checked, check};
use ir_print::print;
use ir_read::read;
use std::alloc::Global;
use std::test::Fail;

// The checked module of a text.
pub(crate) fn checked(alloc: Global, text: &[u8]) -> Result<Checked, Fail> {
    match check(alloc, read(alloc, text)?) {
        Ok(module) => Ok(module),
        Err(refused) => Err(refused.why.into()),
    }
}

// The text of the module that counts that of a text, in the mode in which the entry is counted first or in the other one.
pub(crate) fn counted(alloc: Global, text: &[u8], entry_first: bool) -> Result<String, Fail> {
    let plain = checked(alloc, text)?;
    let made = gen_module(alloc, &plain, entry_first)?;
    let mut out = Vec::new(alloc);
    print(alloc, &mut out, made.module())?;
    Ok(String::from_utf8(out)?)
}

// Why the module of a text is not made one that counts.
pub(crate) fn refusal(alloc: Global, text: &[u8]) -> Result<Option<GenError>, Fail> {
    let module = checked(alloc, text)?;
    Ok(gen_module(alloc, &module, false).err())
}
