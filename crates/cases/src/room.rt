// Replays in little room: what is wanted is a place for the answer of each action, and not for each byte.
ghost use Rattle.std.specs.Prelude.{◌≤◌};

use crate::evening::{LENT, OLD, kept};
use ring::Ring;

// The replay of some bytes, with room for n numbers. A number and no slice: what was not lent is looked at too.
fn replay_lines(text: &[u8], bytes: &[u8], n: usize)
    requires { n ≤ 64 }
{
    let mut buffer = [OLD; LENT];
    let run = Ring::replay(2, 1, Ring::OVERWRITE, bytes, &mut buffer[..n]);
    text::answer_line(text, run.answer);
    text::number_line(b"made", run.made as u64);
    text::number_line(b"stop", run.stop as u64);
    text::number_line(b"kept", kept(&buffer, 0));
}

// 65 bytes 1 are thirteen Begins of value 16843009; a byte 9 is no action. Calls and no table: that n is at most 64 is seen where it is called.
pub(crate) fn run() {
    text::section(b"Replays of 13 Begins in little room");
    let mut bytes = [1u8; 66];
    bytes[65] = 9;
    replay_lines(b"room of 0", &bytes[..65], 0);
    replay_lines(b"room of 38", &bytes[..65], 38);
    replay_lines(b"room of 39", &bytes[..65], 39);
    replay_lines(b"room of 64", &bytes[..65], 64);
    replay_lines(b"9, room of 38", &bytes, 38);
    replay_lines(b"9, room of 39", &bytes, 39);
}
