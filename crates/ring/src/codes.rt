// Answers by number: the code of an answer's kind, with each refusal as a kind of its own, and the values in its brackets.
// A code is a number throughout: so answers lie in the buffers that callers lend, and `numbers_of` says which code is whose.
ghost use Rattle.std.specs.Prelude.{◌≡◌};
ghost use Rattle.rules.specs.Codes.{refusal_code, kind, with_one, numbers_of};

use rules::codes::Numbers;
use rules::state::{Answer, Refusal};

// The code of the last kind that is no refusal. The refusals follow it, by their numbers in the rules.
pub const LAST_KIND: u32 = 22;

fn refusal_code(why: Refusal) -> u32
    ensures { result ≡ refusal_code why }
{
    LAST_KIND + why.number()
}

// An answer with no value.
fn kind(code: u32) -> Numbers
    ensures { result ≡ kind code }
{
    Numbers {
        code,
        first: 0,
        second: 0,
    }
}

// An answer with one value.
fn with_one(code: u32, first: u64) -> Numbers
    ensures { result ≡ with_one code first }
{
    Numbers {
        code,
        first,
        second: 0,
    }
}

// A function and no From, since both types are those of crate rules; the codes are those of its rule `numbers_of`.
pub fn answer_numbers(answer: Answer) -> Numbers
    ensures { result ≡ numbers_of answer }
{
    match answer {
        Answer::Accepted => kind(0),
        Answer::Begun(depth) => with_one(1, u64::from(depth)),
        Answer::Reserved(number) => with_one(2, u64::from(number.0)),
        Answer::Looked => kind(3),
        Answer::Dropped => kind(4),
        Answer::Marked => kind(5),
        Answer::Shared => kind(6),
        Answer::Retry => kind(7),
        Answer::Promoted => kind(8),
        Answer::Standing => kind(9),
        Answer::Cleared => kind(10),
        Answer::Pushed => kind(11),
        Answer::Passed => kind(12),
        Answer::Filled => kind(13),
        Answer::Committed(count) => with_one(14, count),
        Answer::Pending => kind(15),
        Answer::Event(number, value) => Numbers {
            code: 16,
            first: u64::from(number.0),
            second: u64::from(value),
        },
        Answer::Empty => kind(17),
        Answer::Found => kind(18),
        Answer::Busy => kind(19),
        Answer::Prepared => kind(20),
        Answer::Swapped => kind(21),
        Answer::Missed => kind(22),
        Answer::Refused(why) => kind(refusal_code(why)),
    }
}
