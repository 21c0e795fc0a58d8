//! How long a generated script is.
ghost use Rattle.std.specs.Prelude.{ℕ, ◌≤◌, length};
ghost use Rattle.workload_gen.specs.Script.{generated_script};

/// The generated script of each number has at most 1,073,741,824 bytes, the most that a script may have.
pub fn script_is_short()
    ensures { (number : ℕ) → length (generated_script number) ≤ 1_073_741_824 }
{}
