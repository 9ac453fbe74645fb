// Modules that are read from text, and what the checker answers.
use ir_check::{CheckError, LimitKind, Place, check};
use ir_read::read;
use std::alloc::Global;
use std::test::Fail;

// Why the module of a text is refused, None where it is accepted.
pub(crate) fn refusal(alloc: Global, text: &[u8]) -> Result<Option<CheckError>, Fail> {
    match check(alloc, read(alloc, text)?) {
        Ok(_) => Ok(None),
        Err(refused) => Ok(Some(refused.why)),
    }
}

// A rule that is broken first at an item of a block of a function.
pub(crate) fn broken(rule: u8, function: u32, block: u32, item: u64) -> Option<CheckError> {
    let place = Place {
        function,
        block,
        item,
    };
    Some(CheckError::Broken { rule, place })
}

pub(crate) fn limit(which: LimitKind, found: u64) -> Option<CheckError> {
    Some(CheckError::Limit { which, found })
}
