// Calls that were found.
ghost use Rattle.std.specs.Prelude.{◌≡◌, ◌<◌, ◌+◌, ◌^◌, ◌≤◌, OnOk, length};

use ir_model::Call;
use std::alloc::{AllocError, Global};

/// The most calls that a text may have.
pub const CALLS_MOST: usize = 16_384;

/// How many calls were found, and of them those up to the most.
#[derive(Debug, Drop)]
pub struct Calls {
    pub count: u32,
    pub kept: Vec<Call>,
}

impl Calls {
    ghost use Rattle.call_list.specs.Walk.{found_in, found_none, found_more};

    pub fn new(alloc: Global) -> Calls
        ensures { found_in result ≡ found_none }
    {
        Calls {
            count: 0,
            kept: Vec::new(alloc),
        }
    }

    /// Adds the call of a line, if it has one.
    pub fn add(&mut self, call: Option<Call>) -> Result<(), AllocError>
        requires { self.old.count + 1 < 2 ^ 32 }
        ensures added { OnOk result (found_in self.new ≡ found_more (found_in self.old) call) }
        ensures count { self.new.count ≤ self.old.count + 1 }
    {
        let Some(call) = call else {
            return Ok(());
        };
        if self.kept.len() < CALLS_MOST {
            self.kept.push(call)?;
        }
        self.count += 1;
        Ok(())
    }
}
