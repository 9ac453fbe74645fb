//! Abstract machines, their runs, and the law of steps: how a machine that is followed step by step by another relates to
//! it over whole runs. Definitions, and the lemmas on them that several crates use: no code.
#![tactic(auto)]
