// Who is told what is seen of a run: edges to a counter of walks, marks to a probe.
ghost use Rattle.std.specs.Prelude.{◌≡◌, ◌≤◌, List, [], ◌∷◌, ◌++◌, OnOk, OnErr};
ghost use Rattle.ir_machine.specs.Steps.{events_of};

use crate::state::Sight;
use ir_model::Probe;
use pgo_base::NoMemory;

/// What is told all that is seen of a run, in order, such as counts of edges.
pub trait Watcher {
    ghost use Rattle.ir_machine.specs.declared.state.Sight.{Sight};

    // the second watcher is the first one after it saw these
    ghost after: { Self → List Sight → Self → Type 0 };

    fn see(&mut self, sight: Sight)
        ensures { after self.old (sight ∷ []) self.new };

    ghost none: { (w : Self) → after w [] w };

    ghost more: { (u v w : Self) (xs ys : List Sight) → after u xs v → after v ys w → after u (xs ++ ys) w };
}

/// A watcher that keeps nothing.
#[derive(Clone, Copy, Debug)]
pub struct Nobody;

impl Watcher for Nobody {
    ghost after = { λ _ _ _. Unit {0} };

    fn see(&mut self, _sight: Sight) {}

    ghost none = { λ _. tt };

    ghost more = { λ _ _ _ _ _ _ _. tt };
}

/// Tells a probe the mark that is seen, if it is one, of so many counters and sites. The answer is `NoMemory` for one
/// past these, which no code has.
#[inline(always)]
pub fn tell<P: Probe>(
    probe: &mut P,
    counters: u32,
    sites: u32,
    sight: Sight,
) -> Result<(), NoMemory>
    requires counters { counters ≤ P.counters probe.old }
    requires sites { sites ≤ P.sites probe.old }
    ensures told { OnOk result (P.after probe.old (events_of (sight ∷ [])) probe.new) }
    ensures nothing { OnErr result (P.after probe.old [] probe.new) }
    ensures same_counters { P.counters probe.new ≡ P.counters probe.old }
    ensures same_sites { P.sites probe.new ≡ P.sites probe.old }
{
    match sight {
        Sight::Entered { .. } | Sight::Left { .. } => Ok(()),
        Sight::Added { counter, step } => {
            if counter >= counters {
                return Err(NoMemory);
            }
            probe.count(counter, step);
            Ok(())
        }
        Sight::Noted { site, callee } => {
            if site >= sites {
                return Err(NoMemory);
            }
            probe.target(site, callee);
            Ok(())
        }
    }
}
