// What holds of the module that counts an accepted plain module, the clauses of functions that do nothing.
ghost use Rattle.counted_accepted.specs.Gen.{CountersAreFew, IsCountedAccepted, IsCountedKind, IsCountedWell, PlansFit};

use accepted_counts::plain_can_be_counted;
use cfg_edges::graphs_stand;
use counted_rules::{
    functions_grow_little, functions_stay_formed, limits_are_kept, names_are_plain,
};
use ir_rules::look_ups_tell;

/// In an accepted plain module the plan of each defined function fits it: new names are free and apart, and the limits bound
/// counters and sites.
pub fn gen_plans_fit()
    ensures { PlansFit }
{
    plain_can_be_counted();
    names_are_plain();
    limits_are_kept();
    graphs_stand();
    look_ups_tell();
}

/// A defined function of an accepted plain module gets at most 1,048,576 counters, in both modes.
pub fn counters_are_few()
    ensures { CountersAreFew }
{
    plain_can_be_counted();
    graphs_stand();
    look_ups_tell();
    names_are_plain();
    limits_are_kept();
}

/// The module that counts an accepted plain module is well formed, in both modes.
pub fn counted_is_formed()
    ensures { IsCountedWell }
{
    gen_plans_fit();
    names_are_plain();
    functions_stay_formed();
}

/// The module that counts an accepted plain module is accepted as one that counts, in both modes: it breaks no rule, and passes none
/// of the limits of its kind.
pub fn gen_is_accepted()
    ensures accepted { IsCountedAccepted }
    ensures kind { IsCountedKind }
{
    counted_is_formed();
    names_are_plain();
    limits_are_kept();
    functions_grow_little();
}
