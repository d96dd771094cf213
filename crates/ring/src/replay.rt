// Replay: the actions that stand in some bytes, made one by one on the ring of a set-up. The ring stays in one place, and its shape is not tested
// again: a ring that is reached from a set-up is in shape.
ghost use Rattle.std.specs.Prelude.{◌≡◌, ◌+◌, ◌*◌, ◌<◌, ◌≤◌, length};
ghost use Rattle.rules.specs.Actions.{decoded};
ghost use Rattle.rules.specs.Replay.{numbers_per_answer, ran_buffer, buffer_fits, replay_with, refused_replay, ran, replay_rule, buffer_rule, Reached};
ghost use Rattle.ring.specs.Replay.{replay_outcome, laid_at};
ghost use Rattle.ring.specs.Ring.{state_of};
ghost use Rattle.rules.specs.declared.state.Answer.TheVariants.{Accepted};

use crate::actions::{action_at, action_count};
use crate::codes::answer_numbers;
use crate::state::{Replay, Ring};
use rules::actions::Coded;
use rules::codes::Numbers;
use rules::state::{Answer, Refusal};

// How many numbers an answer takes in the buffer lent.
pub const NUMBERS_PER_ANSWER: usize = 3;

// An answer as numbers, from a place on. Three stores, as `laid_at` has them: an array made for a copy would be a fourth line.
fn lay_answer(buffer: &mut [u64], at: usize, n: Numbers)
    requires { at + 2 < length buffer.old }
    ensures { buffer.new ≡ laid_at buffer.old at n }
{
    buffer[at] = u64::from(n.code);
    buffer[at + 1] = n.first;
    buffer[at + 2] = n.second;
}

// Whether a buffer of `room` numbers has a place for the answer of each action of `bytes`. There are no more actions than bytes, so that they are
// counted only where the buffer has no place for an answer to each byte.
fn answers_fit(bytes: &[u8], room: usize) -> bool
    ensures { result ≡ buffer_fits (decoded bytes.now) room }
{
    let places = room / NUMBERS_PER_ANSWER;
    if bytes.len() <= places {
        return true;
    }
    action_count(bytes, 0) <= places
}

// Refused before the first action: the plain ring.
pub fn refused_replay(why: Refusal) -> Replay
    ensures { replay_outcome result ≡ refused_replay why }
{
    Replay {
        ring: Ring::plain(),
        answer: Answer::Refused(why),
        made: 0,
        stop: 0,
    }
}

// All was made that could be.
fn ended(ring: Ring, made: usize, stop: usize) -> Replay
    ensures { replay_outcome result ≡ replay_with (state_of ring) Accepted made stop }
{
    Replay {
        ring,
        answer: Answer::Accepted,
        made,
        stop,
    }
}

impl Ring {
    // All the whole actions from the first byte on.
    fn run(mut self, bytes: &[u8], buffer: &mut [u64]) -> Replay
        requires { Reached (state_of self) × (numbers_per_answer * length (decoded bytes.now).actions ≤ length buffer.old) }
        ensures { (replay_outcome result ≡ ran (state_of self) (decoded bytes.now)) × (buffer.new ≡ ran_buffer (state_of self) (decoded bytes.now) buffer.old) }
    {
        // A cursor over the bytes and a count of the answers laid: where an action ends is known once it is read.
        let mut at: usize = 0;
        let mut made: usize = 0;
        while let Coded::Whole(action, next) = action_at(bytes, at) {
            let answer = self.make(action);
            lay_answer(buffer, NUMBERS_PER_ANSWER * made, answer_numbers(answer));
            at = next;
            made += 1;
        }
        ended(self, made, at)
    }

    // The actions of `bytes` on the ring of a set-up, up to the first that is unknown or cut: `stop` says where, and the answer is Accepted there too.
    // Their answers are in the buffer lent, NUMBERS_PER_ANSWER numbers each. Refused with SETUP where `fresh` refuses, and with ROOM where the buffer has no
    // place for the answer of each action (`action_count` says how many there are). Three numbers and no Size, as in `fresh`.
    pub fn replay(pages: u32, slots: u32, mode: u32, bytes: &[u8], buffer: &mut [u64]) -> Replay
        ensures { (replay_outcome result ≡ replay_rule pages slots mode bytes.now buffer.old) × (buffer.new ≡ buffer_rule pages slots mode bytes.now buffer.old) }
    {
        if !Ring::accepts(pages, slots, mode) {
            return refused_replay(Refusal::SetUp);
        }
        if !answers_fit(bytes, buffer.len()) {
            return refused_replay(Refusal::Room);
        }
        let first = Ring::fresh(pages, slots, mode);
        first.ring.run(bytes, buffer)
    }
}
