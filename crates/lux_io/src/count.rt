//! Counters of faults and calls. A counter stays at its last value once it is there.
ghost use Rattle.std.specs.Prelude.{◌≡◌, ◌↔◌, ◌≤◌, IsTrue, Contains};
ghost use Rattle.lux_io.specs.Files.{one_more};

/// Counts one more.
pub fn count_one(counter: &mut u64)
    ensures counted { counter.new ≡ one_more counter.old }
    ensures later { counter.old ≤ counter.new }
{
    *counter = counter.saturating_add(1);
}

/// Whether the call that has this number is to fail. Counts the call.
pub fn next_call_fails(failing: &[u64], calls: &mut u64) -> bool
    ensures fails { IsTrue result ↔ Contains failing.now calls.old }
    ensures counted { calls.new ≡ one_more calls.old }
{
    let fails = failing.contains(calls);
    count_one(calls);
    fails
}
