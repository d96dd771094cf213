// What is timed, for callers in C and Rust: the functions of crate bench under their names, each with its clauses. Four functions that only call: C
// calls each by its name.
#![tactic(auto)]

ghost use Rattle.std.specs.Prelude.{◌≡◌, length};
ghost use Rattle.rules.specs.Drain.{drain_rule, buffer_after};
ghost use Rattle.trace.specs.Header.{first_action};
ghost use Rattle.trace.specs.Replays.{replayed_from, buffer_from};
ghost use Rattle.bench.specs.Loop.{handed_after};

#[unsafe(no_mangle)]
pub extern "C" fn bench_by_methods(actions: u32) -> u64
    ensures { result ≡ handed_after actions }
{
    bench::bench_by_methods(actions)
}

#[unsafe(no_mangle)]
pub extern "C" fn bench_by_act(actions: u32) -> u64
    ensures { result ≡ handed_after actions }
{
    bench::bench_by_act(actions)
}

#[unsafe(no_mangle)]
pub extern "C" fn bench_replay(bytes: &[u8], answers: &mut [u64]) -> usize
    ensures { (result ≡ (replayed_from bytes.now first_action answers.old).made) × (answers.new ≡ buffer_from bytes.now first_action answers.old) }
{
    bench::bench_replay(bytes, answers)
}

#[unsafe(no_mangle)]
pub extern "C" fn bench_drain(
    bytes: &[u8],
    answers: &mut [u64],
    buffer: &mut [u64],
    turns: u32,
) -> usize
    ensures value { result ≡ length (drain_rule (replayed_from bytes.now first_action answers.old).state (length buffer.old)).events }
    ensures answers_after { answers.new ≡ buffer_from bytes.now first_action answers.old }
    ensures buffer_after { buffer.new ≡ buffer_after (drain_rule (replayed_from bytes.now first_action answers.old).state (length buffer.old)) buffer.old }
{
    bench::bench_drain(bytes, answers, buffer, turns)
}
