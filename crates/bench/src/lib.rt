// What is timed: a loop of actions by value, each on the ring that the last one returned, by the methods themselves and by `Ring::act`; the replay
// of a trace, in place; and the drain of the ring that a trace leaves, in place.
#![tactic(auto)]

ghost use Rattle.std.specs.Prelude.{◌≡◌, length};
ghost use Rattle.std.specs.Borrow.{MutBor};
ghost use Rattle.rules.specs.Act.{act};
ghost use Rattle.rules.specs.Drain.{drain_rule, buffer_after};
ghost use Rattle.rules.specs.declared.state.Action.{Action};
ghost use Rattle.ring.specs.Ring.{state_of, outcome};
ghost use Rattle.ring.specs.declared.state.Step.{Step};
ghost use Rattle.trace.specs.Header.{first_action};
ghost use Rattle.trace.specs.Replays.{replayed_from, buffer_from};
ghost use Rattle.bench.specs.Loop.{next_action, handed_after};

use ring::{Action, Ring, Step};

// A Write while a writer is at work, then Reads until nothing waits, then a Begin.
fn next_action(ring: &Ring, value: u32) -> Action
    ensures { result ≡ next_action ring.now.depth ring.now.counts.handed ring.now.counts.committed value }
{
    if 0 < ring.depth {
        Action::Write
    } else if ring.counts.handed < ring.counts.committed {
        Action::Read
    } else {
        Action::Begin(value)
    }
}

// So many of these actions, each made by `make` on the ring that the last one returned, on a ring of 16 pages of 16 slots in stop mode; the answer is
// how many readings they handed out. `make` is lent the step that the last action returned, and leaves its own there: by value it copies the ring more
// often.
fn handed_by<F: Fn(&mut Step, Action)>(actions: u32, make: F) -> u64
    requires callable { F.IsAlwaysCallable make }
    requires makes { (s t : MutBor Step) (a : Action) → F.post make s a tt t → outcome t.now ≡ act (state_of s.now.ring) a }
    ensures { result ≡ handed_after actions }
{
    let mut s = Ring::fresh(Ring::MOST_PAGES, Ring::MOST_SLOTS, Ring::STOP);
    for i in 0..actions {
        let action = next_action(&s.ring, i);
        make(&mut s, action);
    }
    s.ring.counts.handed
}

// The loop by the methods.
pub fn bench_by_methods(actions: u32) -> u64
    ensures { result ≡ handed_after actions }
{
    handed_by(actions, |s, action| match action {
        Action::Begin(value) => *s = s.ring.begin(value),
        Action::Write => *s = s.ring.write(),
        Action::Read => *s = s.ring.read(),
    })
}

// The same loop by `Ring::act`.
pub fn bench_by_act(actions: u32) -> u64
    ensures { result ≡ handed_after actions }
{
    handed_by(actions, |s, action| *s = s.ring.act(action))
}

// The replay of a trace, with its answers in the buffer lent; the answer is how many actions it made.
pub fn bench_replay(bytes: &[u8], answers: &mut [u64]) -> usize
    ensures { (result ≡ (replayed_from bytes.now first_action answers.old).made) × (answers.new ≡ buffer_from bytes.now first_action answers.old) }
{
    trace::replay(bytes, answers).made
}

// The ring that a trace leaves, drained `turns` times, or once where that is 0, each time as the trace left it; the answer is how many elements a
// drain fills.
pub fn bench_drain(bytes: &[u8], answers: &mut [u64], buffer: &mut [u64], turns: u32) -> usize
    ensures value { result ≡ length (drain_rule (replayed_from bytes.now first_action answers.old).state (length buffer.old)).events }
    ensures answers_after { answers.new ≡ buffer_from bytes.now first_action answers.old }
    ensures buffer_after { buffer.new ≡ buffer_after (drain_rule (replayed_from bytes.now first_action answers.old).state (length buffer.old)) buffer.old }
{
    let ring = trace::replay(bytes, answers).ring;
    let mut made = ring.drain_into(buffer);
    for _ in 1..turns {
        made = ring.drain_into(buffer);
    }
    made.count
}
