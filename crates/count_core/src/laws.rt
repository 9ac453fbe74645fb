// The laws of the core, the clauses of functions that do nothing.
ghost use Rattle.std.specs.Prelude.{List, ℕ};
ghost use Rattle.count_core.specs.CoreState.{IsCore, opening};
ghost use Rattle.count_core.specs.Reaches.{Reaches};
ghost use Rattle.count_core.specs.StepLaws.{KeepSound, KeepRows, OneDidAll, SitesOfOne, KeptStand};
ghost use Rattle.count_core.specs.declared.state.CoreState.{CoreState};
ghost use Rattle.count_core.specs.declared.state.Layout.{Layout};
ghost use Rattle.count_core.specs.declared.step.CoreStep.{CoreStep};

/// Every state that any list of allowed steps of any views reaches from an opening state meets the
/// invariant, with the opening number of shares.
pub fn reached_states_are_cores()
    ensures { (l : Layout) (shares : ℕ) (steps : List CoreStep) (t : CoreState) → Reaches (opening l shares) steps t → IsCore shares t }
{}

/// The steps of a view that has shares keep the invariant: those on a counter or the ticket word,
/// a cut and a join its part on the counters, and those of a walk the rows too.
pub fn steps_keep()
    ensures sound { KeepSound }
    ensures rows { KeepRows }
{}

/// What all views did is what one did that has all shares, and each site is as if there were no
/// other view.
pub fn one_did_all()
    ensures sums { OneDidAll }
    ensures sites { SitesOfOne }
{}

/// The keys that a row keeps are those that stand at its places.
pub fn kept_keys_stand()
    ensures { KeptStand }
{}
