//! Lists of the numbers of calls that are to fail.
ghost use Rattle.std.specs.Prelude.{◌≡◌};
ghost use Rattle.cs_base.specs.outside.FailingCalls.{fails_next, after_call};

// Counts a call: whether it is to fail. Behind it the list is numbered from the next call.
pub(crate) fn count_call(calls: &mut Vec<u64>) -> bool
    ensures fails { result ≡ fails_next calls.old.items }
    ensures left { calls.new.items ≡ after_call calls.old.items }
{
    let fails = calls.contains(&1);
    for number in calls.iter_mut() {
        *number = number.saturating_sub(1);
    }
    fails
}
