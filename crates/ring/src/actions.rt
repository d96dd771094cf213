// Actions as bytes, one after the other: what stands at a place, and how many there are. The bytes are lent whole and a place
// beside them, since the rules count places from their start.
ghost use Rattle.std.specs.Prelude.{◌≡◌, ◌+◌, ◌<◌, length};
ghost use Rattle.rules.specs.Actions.{begin_at, coded_at, decoded_from};

use rules::actions::Coded;
use rules::state::Action;

// A Begin, which may be cut.
fn begin_at(bytes: &[u8], at: usize) -> Coded
    requires { at < length bytes.now }
    ensures { result ≡ begin_at bytes.now at }
{
    if bytes.len() - at < Action::BEGIN_LENGTH {
        return Coded::Broken;
    }
    let value = u32::from_le_bytes([bytes[at + 1], bytes[at + 2], bytes[at + 3], bytes[at + 4]]);
    Coded::Whole(Action::Begin(value), at + Action::BEGIN_LENGTH)
}

// What stands at a place. The byte there is matched as a number: it may be any, and an action has its value in the bytes after it.
pub fn action_at(bytes: &[u8], at: usize) -> Coded
    ensures { result ≡ coded_at bytes.now at }
{
    if bytes.len() <= at {
        return Coded::End;
    }
    match bytes[at] {
        Action::BEGIN => begin_at(bytes, at),
        Action::WRITE => Coded::Whole(Action::Write, at + 1),
        Action::READ => Coded::Whole(Action::Read, at + 1),
        _ => Coded::Broken,
    }
}

// How many whole actions stand one after the other from a place on. A cursor and no index: where the next one stands is known by this one's length.
pub fn action_count(bytes: &[u8], from: usize) -> usize
    ensures { result ≡ length (decoded_from bytes.now from).actions }
{
    let mut at = from;
    let mut count: usize = 0;
    while let Coded::Whole(_action, next) = action_at(bytes, at) {
        at = next;
        count += 1;
    }
    count
}
