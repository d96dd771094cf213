// The header of a trace: mark, version and set-up.
ghost use Rattle.std.specs.Prelude.{◌≡◌};
ghost use Rattle.trace.specs.Header.{mode_of, set_up, header_gives, header_rule};

use crate::parts::{MOST_LENGTH, PLAIN_BYTE, VERSION};
use ring::{Refusal, Ring};
use rules::state::Size;

// The mode that a mode byte stands for. A number and no enum: it may be out of range, which `Ring::accepts` refuses.
fn mode_of(byte: u8) -> u32
    ensures { result ≡ mode_of byte }
{
    if byte == PLAIN_BYTE {
        Ring::PLAIN_MODE
    } else {
        u32::from(byte)
    }
}

// What the three bytes of a set-up say.
fn set_up(pages: u8, slots: u8, mode: u8) -> Result<Size, Refusal>
    ensures { result ≡ set_up pages slots mode }
{
    let size = Size {
        pages: u32::from(pages),
        slots: u32::from(slots),
        mode: mode_of(mode),
    };
    if Ring::accepts(size.pages, size.slots, size.mode) {
        Ok(size)
    } else {
        Err(Refusal::Sizes)
    }
}

// The set-up that the header says, with the mode that the ring gets, or the first refusal that applies.
pub fn header(bytes: &[u8]) -> Result<Size, Refusal>
    ensures { header_gives result ≡ header_rule bytes.now }
{
    if MOST_LENGTH < bytes.len() {
        return Err(Refusal::Mark);
    }
    let [b'P', b'T', b'R', rest @ ..] = bytes else {
        return Err(Refusal::Mark);
    };
    let [low, high, rest @ ..] = rest else {
        return Err(Refusal::Version);
    };
    if u16::from_le_bytes([*low, *high]) != VERSION {
        return Err(Refusal::Version);
    }
    let [pages, slots, mode, ..] = rest else {
        return Err(Refusal::Sizes);
    };
    set_up(*pages, *slots, *mode)
}
