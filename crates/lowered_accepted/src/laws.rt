// What holds of the lowered form of an accepted module that counts, the clauses of functions that do nothing.
ghost use Rattle.lowered_accepted.specs.Lowered.{IsLoweredAccepted, IsLoweredWell};
ghost use Rattle.lowered_rules.specs.Kept.{IsLoweredKind};

use lowered_rules::{
    functions_stay_formed, globals_stay_formed, kind_is_lowered, symbols_stay_apart,
};

/// The lowered module of an accepted module that counts is well formed, where lowering refuses nothing.
pub fn lowered_is_formed()
    ensures { IsLoweredWell }
{
    kind_is_lowered();
    symbols_stay_apart();
    globals_stay_formed();
    functions_stay_formed();
}

/// It is accepted where it passes no limit, and of the kind of modules with counters.
pub fn lowered_is_accepted()
    ensures accepted { IsLoweredAccepted }
    ensures kind { IsLoweredKind }
{
    lowered_is_formed();
    kind_is_lowered();
}
