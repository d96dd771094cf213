// Room for a file's name.
ghost use Rattle.std.specs.Prelude.{◌≡◌, length};

// Linux passes no longer argument where its memory pages have 4 KiB, so a name is not cut there. A longer one is an empty name, which no file has.
pub const NAME: usize = 131072;

// A function of its own: its clause tells the length, where a caller would count the bytes.
pub fn name_buffer() -> [u8; NAME]
    ensures { 131072 ≡ length result }
{
    [0u8; NAME]
}
