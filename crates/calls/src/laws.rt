// What holds of calls.
ghost use Rattle.calls.specs.Laws.{CountCallsAreParts, CheckCallsAreParts};

// Words are a call of `count` exactly if they are written by parts, in any order, that mean it.
pub fn count_calls_are_parts()
    ensures { CountCallsAreParts }
{}

// The same of `check`.
pub fn check_calls_are_parts()
    ensures { CheckCallsAreParts }
{}
