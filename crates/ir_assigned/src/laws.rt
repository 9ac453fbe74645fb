// What the unready items of a function are to the rules.
ghost use Rattle.ir_assigned.specs.Unready.{UnreadyArePlaces};

/// The items that read what some walk doesn't assign are the places that break rule 16 in the function, in the same order.
pub fn unready_are_places()
    ensures { UnreadyArePlaces }
{}
