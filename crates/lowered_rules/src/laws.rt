// What holds of every lowered module, the clauses of functions that do nothing.
ghost use Rattle.lowered_rules.specs.Kept.{FunctionsStayFormed, GlobalsStayFormed, IsLoweredKind, RuntimeIsFormed, SymbolsStayApart, TextsStayApart, UnitsAreTold};
ghost use Rattle.lowered_rules.specs.Small.{AsksAreSmall, FunctionsStaySmall};

/// The lowered module is of the kind of modules with counters, whatever the module.
pub fn kind_is_lowered()
    ensures { IsLoweredKind }
{}

/// What the calls of a module tell of a unit that is used: a hash of 64 bits, as many counters as a unit may have, and few sites.
pub fn units_are_told()
    ensures { UnitsAreTold }
{}

/// The symbols of the lowered module are distinct, and so are the names of its units.
pub fn symbols_stay_apart()
    ensures symbols { SymbolsStayApart }
    ensures texts { TextsStayApart }
{}

/// Each function but the intrinsics is well formed in the lowered module when it is lowered, and so is the profile runtime's.
pub fn functions_stay_formed()
    ensures lowered { FunctionsStayFormed }
    ensures runtime { RuntimeIsFormed }
{}

/// Each global of the lowered module is well formed in it: those of the module, and the counters and data of each unit.
pub fn globals_stay_formed()
    ensures { GlobalsStayFormed }
{}

/// A lowered function has the same edges, and no result, call through a register or array type more.
pub fn functions_stay_small()
    ensures { FunctionsStaySmall }
{}

/// What the calls of a module that counts ask is small: each tells as many counters as a unit may have, a counter of 32 bits, and one of
/// few sites.
pub fn asks_are_small()
    ensures { AsksAreSmall }
{}
