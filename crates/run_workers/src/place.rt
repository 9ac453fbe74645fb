// Results in the order of the calls.
ghost use Rattle.std.specs.Prelude.{◌≡◌, ℕ, ◌<◌, length, map, slice_index_or, IfOk, All};
ghost use Rattle.ir_model.specs.declared.result.CallResult.{CallResult};
ghost use Rattle.run_workers.specs.Workers.{no_result, times};

use ir_model::{Call, CallResult, End};
use ir_tree::Seq;
use pgo_base::NoMemory;
use std::alloc::Global;

/// A place for the result of each call.
pub(crate) fn places_for(alloc: Global, calls: &[Call]) -> Result<Vec<CallResult>, NoMemory>
    ensures { IfOk result (λ places. length places.items ≡ length calls.now) }
{
    let mut places = Vec::with_capacity(alloc, calls.len())?;
    for _call in calls {
        places.push(CallResult {
            printed: Seq::new(alloc),
            end: End::StepsSpent,
        })?;
    }
    Ok(places)
}

/// Puts each result into the place of its number.
pub(crate) fn place_results(mut done: Vec<(u32, CallResult)>, places: &mut [CallResult])
    requires { All (λ n. n < length places.old) (map (λ e. e.0) done.items) }
    ensures size { length places.new ≡ length places.old }
    ensures placed { (of : ℕ → CallResult) → All (λ e. e.1 ≡ of e.0) done.items → (n : ℕ) → 0 < times n done.items → slice_index_or places.new n no_result ≡ of n }
{
    while let Some((number, result)) = done.pop() {
        places[number as usize] = result;
    }
}
