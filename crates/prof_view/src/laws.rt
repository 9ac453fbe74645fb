// Laws of the profile text, each the contract of a function without a body.
ghost use Rattle.prof_view.specs.Laws.{OneProfile, LookingAhead};
ghost use Rattle.prof_view.specs.Examples.{SpelledExamples, RefusedExamples};

/// A text spells one profile at most.
pub fn one_profile()
    ensures { OneProfile }
{}

/// Looking ahead at the next line reads exactly what is spelled.
pub fn looking_ahead()
    ensures { LookingAhead }
{}

/// Worked examples of texts that spell a profile.
pub fn spelled_examples()
    ensures { SpelledExamples }
{}

/// Worked examples of texts that spell none.
pub fn refused_examples()
    ensures { RefusedExamples }
{}
