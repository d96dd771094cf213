// Whether bytes are a word: the words of a text and the name of a form are known by this, and by nothing else.
ghost use Rattle.std.specs.Prelude.{◌≡◌};
ghost use Rattle.files.specs.Words.{is_word};

// A loop, and no `==` of slices: one byte of the word must not be enough, and what refuses that is what the loop keeps.
pub fn is_word(bytes: &[u8], word: &[u8]) -> bool
    ensures { result ≡ is_word bytes.now word.now }
{
    if bytes.len() != word.len() {
        return false;
    }
    let mut same = true;
    for i in 0..word.len() {
        same &= bytes[i] == word[i];
    }
    same
}
