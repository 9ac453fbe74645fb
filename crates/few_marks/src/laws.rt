// What holds of the marks of every run, the clause of a function that does nothing.
ghost use Rattle.few_marks.specs.Few.{MarksAreFew};

/// A run marks at most once a step: a counter rises or a call target is noted by one instruction at a time.
pub fn marks_are_few()
    ensures { MarksAreFew }
{}
