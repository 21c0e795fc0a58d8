//! The streams and the plans of drawn commands.

/// The commands that make the streams.
pub const STREAMS: &str = "stream s (k:int, v:int)\nstream t (j:int, w:text)\n";

/// How many plans there are.
pub const PLAN_COUNT: u64 = 9;

/// A plan, as scripts and as `postfix_plans` write it.
#[derive(Clone, Copy)]
pub struct PlanText {
    pub script: &'static str,
    pub postfix: &'static str,
}

/// The plan with this number.
pub fn plan(number: u64) -> PlanText {
    match number {
        0 => written(
            "from s | group k with n = count(), total = sum(v)",
            "s0 key0 count sum1 group",
        ),
        1 => written(
            "from t | select w = w | distinct",
            "s1 #1 columns1 distinct",
        ),
        2 => written("from s | join (from t) on k = j", "s0 s1 on0=0 join"),
        3 => written("from s | order v desc, k", "s0 down1 up0 order"),
        4 => written(
            "from s | where v > 40 and k != 2",
            "s0 #1 40 op17 #0 2 op11 and filter",
        ),
        5 => written(
            "from s | join (from t) on k = j | group w with n = count(), total = sum(v)",
            "s0 s1 on0=0 join key3 count sum1 group",
        ),
        6 => written(
            "from s | where v > 70 | concat (from s | where k = 1) | distinct",
            "s0 #1 70 op17 filter s0 #0 1 op9 filter concat distinct",
        ),
        7 => written(
            "from s | group k with a = min(v), b = max(v), c = first(v), d = last(v), e = avg(v)",
            "s0 key0 min1 max1 first1 last1 avg1 group",
        ),
        _ => written("from t", "s1"),
    }
}

fn written(script: &'static str, postfix: &'static str) -> PlanText {
    PlanText { script, postfix }
}
