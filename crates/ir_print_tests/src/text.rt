// Whether the module that a text spells is printed as another text.
use ir_print::print;
use ir_read::read;
use std::alloc::Global;
use std::test::Fail;

// The canonical text of the module that a text spells.
pub fn printed(alloc: Global, text: &[u8]) -> Result<Vec<u8>, Fail> {
    let module = read(alloc, text)?;
    let mut out = Vec::new(alloc);
    print(alloc, &mut out, &module)?;
    Ok(out)
}

pub fn is_printed_as(alloc: Global, text: &[u8], canonical: &[u8]) -> Result<bool, Fail> {
    Ok(printed(alloc, text)?.as_slice() == canonical)
}
