// How often each kind of answer came.
ghost use Rattle.std.specs.Prelude.{◌≡◌};
ghost use Rattle.text.specs.Tallies.{no_answers, tallied};

use crate::put::Line;
use ring::{Answer, answer_numbers};

// How many kinds of answer there are, with each refusal as one of its own.
const KINDS: usize = 33;

// A count for each kind of answer, at its code. An array and no map, since nothing here allocates.
pub type Tally = [u64; KINDS];

// A tally before any answer.
pub fn no_answers() -> Tally
    ensures { result ≡ no_answers }
{
    [0; KINDS]
}

// One more answer of its kind.
pub fn count_answer(counts: &mut Tally, answer: Answer)
    ensures { counts.new ≡ tallied counts.old answer }
{
    let code = answer_numbers(answer).code as usize;
    counts[code] = counts[code].wrapping_add(1);
}

// How often a kind of answer came.
fn count_line(code: u32, count: u64) -> bool {
    let mut line = Line::new();
    line.bytes(b"  ");
    line.kind(code);
    line.pad();
    write!(line, "{count}");
    line.print()
}

// A line for each kind that came, and none for one that did not. A line after one that could not be written is tried all the same, so `all` would not do.
pub fn tally(counts: &Tally) -> bool {
    let mut good = true;
    for (code, count) in (0..).zip(counts) {
        if *count != 0 {
            good &= count_line(code, *count);
        }
    }
    good
}
