// The commands with their arguments.

/// A command with its arguments, each option that wasn't given with its default. Modules, calls, profiles and outputs are
/// names of files.
#[derive(Debug, Drop)]
pub enum Plan {
    /// Prints the kind of an accepted module.
    Check {
        module: String,
    },
    /// Prints a module in its canonical text.
    Print {
        module: String,
    },
    /// Writes the module with counters, as LLVM's `pgo-instr-gen` pass in outline.
    Gen {
        module: String,
        out: String,
        entry_first: bool,
    },
    /// Writes the module with its counting intrinsics lowered, as LLVM's `instrprof` pass in outline.
    Lower {
        module: String,
        out: String,
    },
    /// Runs the calls of a text on a module, each with so many steps, and prints their outcomes.
    Run {
        module: String,
        calls: String,
        steps: u64,
        workers: u32,
        profile: Option<String>,
        entry_first: bool,
        places: u32,
    },
    /// Merges text profiles, as `llvm-profdata merge` does.
    Merge {
        out: String,
        inputs: Vec<String>,
        workers: u32,
    },
    /// Prints the sums of a text profile.
    Show {
        input: String,
    },
    /// Prints the count of every edge that a profile gives for a module.
    Edges {
        module: String,
        profile: String,
    },
    /// The command `use`: writes the module with the counts of a profile, as LLVM's `pgo-instr-use` pass in outline.
    Annotate {
        module: String,
        profile: String,
        out: String,
    },
    /// Writes the module with its hot indirect calls promoted to direct ones.
    Promote {
        module: String,
        profile: String,
        out: String,
    },
    /// The command `chain` with two files: runs the calls on a module, and prints their outcomes and the count of every
    /// edge.
    Walks {
        module: String,
        calls: String,
        steps: u64,
    },
    /// Counts the calls on a module, and writes their profile and the module that it makes.
    Chain {
        module: String,
        calls: String,
        profile: String,
        out: String,
        steps: u64,
        workers: u32,
        entry_first: bool,
        places: u32,
    },
    /// Does the work of `chain` on a module and calls that a number generates.
    Large {
        number: u32,
        workers: u32,
        places: u32,
    },
    /// Writes the module with its blocks laid out by the counts of a profile.
    Layout {
        module: String,
        profile: String,
        out: String,
        peel: u32,
    },
    /// Prints the spanning tree of each function, with its certificate.
    Tree {
        module: String,
        entry_first: bool,
    },
}

/// The command `stream` with its arguments.
#[derive(Debug, Drop)]
pub struct StreamPlan {
    pub module: String,
    pub calls: String,
    pub steps: u64,
    pub workers: u32,
    pub room: u32,
}
