// What an evaluator tells of a run while it goes on.
ghost use Rattle.std.specs.Prelude.{◌≡◌, ℕ, ◌^◌, ◌<◌, List, [], ◌∷◌, ◌++◌};

use ir_tree::Seq;

/// What a step may log. A probe sees `Added` and `Noted` alone.
#[derive(Clone, Copy, Debug, PartialEq, Eq)]
pub enum Event {
    /// An edge of a function's graph was walked.
    Walked {
        function: u32,
        edge: u32,
    },
    /// A call through a register of a function, at this site, went to `callee`.
    Target {
        function: u32,
        site: u32,
        callee: u32,
    },
    /// A counter rose by `step`.
    Added {
        counter: u32,
        step: u64,
    },
    /// A call target was noted at a site.
    Noted {
        site: u32,
        callee: u32,
    },
    /// A select saw this condition.
    Chose {
        function: u32,
        select: u32,
        value: u64,
    },
}

/// What is told the marks of a run in their order, such as the counters that the run adds to.
pub trait Probe {
    ghost use Rattle.ir_model.specs.declared.probe.Event.{Event};
    ghost use Rattle.ir_model.specs.declared.probe.Event.TheVariants as event;

    // the second probe is the first one after these events
    ghost after: { Self → List Event → Self → Type 0 };

    // how many counters and sites the probe has, which no call changes
    ghost counters: { Self → ℕ };

    ghost sites: { Self → ℕ };

    /// A counter rises by `step`.
    fn count(&mut self, counter: u32, step: u64)
        requires { counter < counters self.old }
        ensures told { after self.old (event.Added counter step ∷ []) self.new }
        ensures counters { counters self.new ≡ counters self.old }
        ensures sites { sites self.new ≡ sites self.old };

    /// A call target, by its function's number, is noted at a site.
    fn target(&mut self, site: u32, callee: u32)
        requires { site < sites self.old }
        ensures told { after self.old (event.Noted site callee ∷ []) self.new }
        ensures counters { counters self.new ≡ counters self.old }
        ensures sites { sites self.new ≡ sites self.old };

    ghost none: { (p : Self) → after p [] p };

    ghost more: { (p q r : Self) (xs ys : List Event) → after p xs q → after q ys r → after p (xs ++ ys) r };
}

/// The probe of a run of which nothing is to be counted: it takes every counter and site, and keeps
/// nothing.
#[derive(Clone, Copy, Debug, Default)]
pub struct QuietProbe;

impl Probe for QuietProbe {
    ghost after = { λ _ _ _. Unit {0} };

    ghost counters = { λ _. 2 ^ 32 };

    ghost sites = { λ _. 2 ^ 32 };

    fn count(&mut self, _counter: u32, _step: u64) {}

    fn target(&mut self, _site: u32, _callee: u32) {}

    ghost none = { λ _. tt };

    ghost more = { λ _ _ _ _ _ _ _. tt };
}

/// What a module counts under one name: the hash of the function's graph, its numbers of counters and
/// sites, and the numbers of its first counter and site among those of the whole module.
#[derive(Debug, Drop)]
pub struct Tally {
    pub name: Seq<u8>,
    pub hash: u64,
    pub counters: u32,
    pub sites: u32,
    pub first_counter: u32,
    pub first_site: u32,
}
