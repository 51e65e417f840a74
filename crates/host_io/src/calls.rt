//! Calls by their numbers, and a count of faults.
ghost use Rattle.std.specs.Prelude.{◌≡◌, ◌≤◌, ◌+◌, ◌-◌};
ghost use Rattle.host_io.specs.Files.{Rose};
ghost use Rattle.host_io.specs.Memory.{count_after, fails_next};

/// Counts a call, from 1, and says whether it is one that is to fail. Past the last value of
/// `calls` a call has no number.
pub fn count_call(calls: &mut u32, fail: &[u32]) -> bool
    ensures fails { result ≡ fails_next fail.now calls.old }
    ensures counted { calls.new ≡ count_after calls.old }
    ensures rises { calls.old ≤ calls.new }
{
    if *calls == u32::MAX {
        return false;
    }
    *calls += 1;
    fail.contains(calls)
}

/// One fault more. At its last value the count stays.
pub fn one_more(faults: u64) -> u64
    ensures count { faults ≤ result }
    ensures rose { Rose faults result }
{
    faults.saturating_add(1)
}
