// What holds of trains in every list of calls.
ghost use Rattle.safety.specs.Safety.{SafeRuns};

// Does nothing: its contract is that at every accepted station, at the opening and after each call of a list, no two trains hold one segment,
// the points under trains are settled and no call changes them, no train is derailed, and each has entered the first segments of its route's path.
pub fn safe_runs()
    ensures { SafeRuns }
{}
