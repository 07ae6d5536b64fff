// Theorems, as functions with an empty body: each `ensures` is the statement.
ghost use Rattle.tag_list.specs.Claims.{AtMostFour, NoInkShared};

// No list of tags is longer than the answer has places for.
pub fn at_most_four()
    ensures { AtMostFour }
{}

// Two tries of kept regions have no ink pixel in common.
pub fn no_ink_shared()
    ensures { NoInkShared }
{}
