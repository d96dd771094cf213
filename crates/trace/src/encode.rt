// Writing a trace into bytes that are lent: the header, and then one action after the other, each at the place that the last call gave.
ghost use Rattle.std.specs.Prelude.{◌≡◌, ◌+◌, length};
ghost use Rattle.trace.specs.Encode.{put, kept, place_for, put_gives, put_header_rule, put_action_rule, header_put, action_put};

use crate::parts::{MOST_LENGTH, VERSION};
use ring::{Action, Refusal, Ring};

// The place after `count` bytes from `at` on, or the first refusal that applies. `at` is tested by itself, so that the sum does not wrap.
fn place_for(capacity: usize, at: usize, count: usize) -> Result<usize, Refusal>
    ensures { result ≡ place_for capacity at count }
{
    if MOST_LENGTH < at || MOST_LENGTH - at < count {
        return Err(Refusal::Mark);
    }
    if capacity < at + count {
        return Err(Refusal::Room);
    }
    Ok(at + count)
}

// Bytes from `at` on, and the place after them. Where they are refused, `out` is left as it was.
fn put(out: &mut [u8], at: usize, bytes: &[u8]) -> Result<usize, Refusal>
    ensures place { result ≡ place_for (length out.old) at (length bytes.now) }
    ensures bytes { out.new ≡ kept result (put bytes.now at out.old) out.old }
{
    let next = place_for(out.len(), at, bytes.len())?;
    out[at..next].copy_from_slice(bytes);
    Ok(next)
}

// The header of a trace. Where it is refused, `out` is left as it was. Three numbers and no `Size`: a caller passes them as to `Ring::fresh`.
pub fn put_header(out: &mut [u8], pages: u32, slots: u32, mode: u32) -> Result<usize, Refusal>
    ensures place { put_gives result ≡ put_header_rule (length out.old) pages slots mode }
    ensures bytes { out.new ≡ header_put out.old pages slots mode }
{
    if !Ring::accepts(pages, slots, mode) {
        return Err(Refusal::Sizes);
    }
    let [low, high] = VERSION.to_le_bytes();
    let (pages, slots, mode) = (pages as u8, slots as u8, mode as u8);
    put(out, 0, &[b'P', b'T', b'R', low, high, pages, slots, mode])
}

// An action from `at` on. Where it is refused, `out` is left as it was. The caller keeps the bytes and the place, and no struct of both: it passes each
// place on, and has it after a refusal too.
pub fn put_action(out: &mut [u8], at: usize, action: Action) -> Result<usize, Refusal>
    ensures place { put_gives result ≡ put_action_rule (length out.old) at action }
    ensures bytes { out.new ≡ action_put out.old at action }
{
    match action {
        Action::Begin(value) => {
            let [first, second, third, fourth] = value.to_le_bytes();
            put(out, at, &[Action::BEGIN, first, second, third, fourth])
        }
        Action::Write => put(out, at, &[Action::WRITE]),
        Action::Read => put(out, at, &[Action::READ]),
    }
}
