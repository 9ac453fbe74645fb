// What holds of every plan that fits, the clauses of functions that do nothing.
ghost use Rattle.counted_rules.specs.Grown.{FunctionsGrowLittle, ReorderedAreAsLarge};
ghost use Rattle.counted_rules.specs.Kept.{DeclaredStayFormed, FunctionsStayFormed, NamesStayApart, ReorderedStayFormed};
ghost use Rattle.counted_rules.specs.PlainNames.{NamesArePlain};
ghost use Rattle.counted_rules.specs.Within.{LimitsAreKept};

/// The parameters, labels and results of a function that counts have distinct names.
pub fn names_stay_apart()
    ensures { NamesStayApart }
{}

/// A function that counts by a plan that fits is well formed in the module that counts, and so is a declared one by any plan, and
/// one that doesn't count, in whatever order its blocks behind the first stand.
pub fn functions_stay_formed()
    ensures fitting { FunctionsStayFormed }
    ensures declared { DeclaredStayFormed }
    ensures reordered { ReorderedStayFormed }
{}

/// Whatever the plan, a function that counts is declared where it was. It has at most twice as many ways out of its blocks, and one more for each new name; one
/// result more for each select and each call through a register, and none where the plan watches nothing; and no select, no such
/// call and no array type more.
pub fn functions_grow_little()
    ensures { FunctionsGrowLittle }
{}

/// A function whose blocks behind the first stand in another order is as large as it was, in each quantity that has a limit.
pub fn reordered_are_as_large()
    ensures { ReorderedAreAsLarge }
{}

/// No name of a global or function of a plain module is one that a profile adds, so counting finds its names free.
pub fn names_are_plain()
    ensures { NamesArePlain }
{}

/// A module passes no limit exactly where each of its quantities is within the limit of its kind.
pub fn limits_are_kept()
    ensures { LimitsAreKept }
{}
