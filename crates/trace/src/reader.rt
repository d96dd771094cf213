// A trace that is read: a struct that keeps hold of its bytes, and its actions made one by one on the ring of its header.
ghost use Rattle.std.specs.Prelude.{◌≡◌, ◌+◌, ◌<◌, ◌^◌};
ghost use Rattle.rules.specs.Actions.{coded_at};
ghost use Rattle.ring.specs.Replay.{replay_outcome};
ghost use Rattle.trace.specs.Header.{first_action};
ghost use Rattle.trace.specs.Replays.{told_from, replayed_from, buffer_from};

use crate::header::header;
use crate::parts::FIRST_ACTION;
use ring::replay::refused_replay;
use ring::{Answer, Coded, Refusal, Replay, Ring, action_at};

// A run of the bytes from `from` on, told as one of all `length` bytes. Where it stops before their end, the action there is unknown or cut.
// An `Answer` and no Result: a replay answers as an action does.
fn told_from(run: Replay, length: usize, from: usize) -> Replay
    requires { from + run.stop < 2 ^ 64 }
    ensures { replay_outcome result ≡ told_from length from (replay_outcome run) }
{
    let stop = from + run.stop;
    let answer = if stop == length {
        Answer::Accepted
    } else {
        Answer::Refused(Refusal::Action)
    };
    Replay {
        answer,
        stop,
        ..run
    }
}

// A trace that is read: its bytes, which the reader keeps hold of, and the place of the next action. All the bytes with a place, and no rest of them:
// the header stands at their start, the stop of a replay is told from there, and a place may be past the end.
#[derive(Clone, Copy, Debug, PartialEq, Eq)]
pub struct TraceReader<'a> {
    pub bytes: &'a [u8],
    pub at: usize,
}

impl<'a> TraceReader<'a> {
    // A reader of these bytes, at the first action.
    pub fn open(bytes: &'a [u8]) -> TraceReader<'a>
        ensures { (result.bytes ≡ bytes.entry) × (result.at ≡ first_action) }
    {
        TraceReader {
            bytes,
            at: FIRST_ACTION,
        }
    }

    // What stands at the place.
    pub fn item(self) -> Coded
        ensures { result ≡ coded_at self.entry.bytes.now self.entry.at }
    {
        action_at(self.bytes, self.at)
    }

    // The same bytes at another place.
    pub fn moved(self, at: usize) -> TraceReader<'a>
        ensures { (result.bytes ≡ self.entry.bytes) × (result.at ≡ at) }
    {
        TraceReader { at, ..self }
    }

    // The header, then the actions from the place on, made one by one on the fresh ring that the header says; a place past the end is the end. The
    // answers are in the buffer that is lent. ROOM, for a buffer that is too short, is passed on as it came: no action was made, and there is no stop to
    // tell.
    pub fn replay(self, answers: &mut [u64]) -> Replay
        ensures { (replay_outcome result ≡ replayed_from self.entry.bytes.now self.entry.at answers.old) × (answers.new ≡ buffer_from self.entry.bytes.now self.entry.at answers.old) }
    {
        match header(self.bytes) {
            Err(why) => refused_replay(why),
            Ok(size) => {
                let from = self.at.min(self.bytes.len());
                let run = Ring::replay(
                    size.pages,
                    size.slots,
                    size.mode,
                    &self.bytes[from..],
                    answers,
                );
                match run.answer {
                    Answer::Accepted => told_from(run, self.bytes.len(), from),
                    _ => run,
                }
            }
        }
    }
}

// A whole trace, by a reader that keeps hold of its bytes: its header, and the actions from the first one on. Refused with MARK, VERSION or SIZES for
// its header, then with ROOM where `answers` has no place for the answer of each action, with the plain ring each; and with ACTION at an action that is
// unknown or cut, whose offset is `stop`, with the ring after the last whole one.
pub fn replay(bytes: &[u8], answers: &mut [u64]) -> Replay
    ensures { (replay_outcome result ≡ replayed_from bytes.now first_action answers.old) × (answers.new ≡ buffer_from bytes.now first_action answers.old) }
{
    TraceReader::open(bytes).replay(answers)
}
