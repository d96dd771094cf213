// The actions of a replay, with their answers.
use ring::replay::NUMBERS_PER_ANSWER;
use ring::{Action, Coded, Numbers, action_at};
use trace::parts::FIRST_ACTION;

// An answer's three numbers, as they stand in the buffer that was lent. Its code is far below the limit.
fn numbers_of(answer: &[u64; NUMBERS_PER_ANSWER]) -> Numbers {
    let [code, first, second] = *answer;
    Numbers {
        code: u32::try_from(code).unwrap_or(u32::MAX),
        first,
        second,
    }
}

// A line for each action made, with its answer, by its number and its place. The bytes are walked again, beside the answers: as many whole actions stand
// there as were made. A place and no rest of the bytes: it is printed, and the ring's own reader of actions takes it.
pub(crate) fn action_lines<F: Fn(usize, usize, Action, Numbers) -> bool>(
    bytes: &[u8],
    answers: &[u64],
    made: usize,
    line: F,
) -> bool
    requires { F.IsAlwaysCallable line }
{
    let (answers, _) = answers.as_chunks::<NUMBERS_PER_ANSWER>();
    let mut good = true;
    let mut at = FIRST_ACTION;
    for (i, answer) in answers.iter().take(made).enumerate() {
        let Coded::Whole(action, next) = action_at(bytes, at) else {
            return good;
        };
        good &= line(i, at, action, numbers_of(answer));
        at = next;
    }
    good
}
