//! Which calls fail: those that are listed, and each from a number on.
ghost use Rattle.std.specs.Prelude.{◌≡◌, ◌+◌, ◌-◌, ◌^◌, min};
ghost use Rattle.mem_outside.specs.Schedule.{next_fails};

/// Whether the next call is to fail, which takes its number.
pub fn next_call_fails(fails: &[u64], fail_from: Option<u64>, next_call: &mut u64) -> bool
    ensures fails { result
        ≡ next_fails (record { listed = fails.now; from = fail_from; next = next_call.old }) }
    ensures next { next_call.new ≡ min (next_call.old + 1) (2 ^ 64 - 1) }
{
    let call = *next_call;
    *next_call = call.saturating_add(1);
    match fail_from {
        Some(first) if first <= call => true,
        _ => fails.contains(&call),
    }
}
