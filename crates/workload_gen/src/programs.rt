//! The programs that the script runs.
ghost use Rattle.std.specs.Prelude.{◌≡◌, ◌<◌};
ghost use Rattle.workload_gen.specs.Programs.{program_text};

/// The text of the program of this number.
#[tactic(auto, unfolding(crate::specs::Programs::program_text))]
pub fn program_text(program: u64) -> &'static [u8]
    requires { program < 12 }
    ensures { result.now ≡ program_text program }
{
    match program {
        0 => b"from s0 | group tag with n = count()",
        1 => b"from s0 | group tag with t = sum(qty), a = avg(qty)",
        2 => b"from s1 | where qty > 0 | group tag with t = sum(qty)",
        3 => b"from s1 | where qty > 0 | select k = tag, v = qty * 2",
        4 => b"from s2 | select k = tag | distinct",
        5 => b"from s2 | select k = tag | distinct | order k",
        6 => b"from s0 | order qty desc, id",
        7 => b"from s0 | concat (from s1) | group tag with n = count()",
        8 =>
            b"from s0 | join (from s1 | group tag with m = max(qty) | select k = tag, w = m) on tag = k | where qty = w",
        9 => b"from s2 | join (from s2 | where qty > 780 | select k = id) on id = k",
        10 => b"from s1 | group tag with f = first(id), l = last(id)",
        _ =>
            b"from s0 | where qty < -100 or qty > 700 | select d = qty % 7 | group d with n = count()",
    }
}
