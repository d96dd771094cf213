// Link words: 4 * (next page) + flag. They are split, joined and searched here and nowhere else. A flag is a
// number in all of them (`flag_in`).
ghost use Rattle.std.specs.Prelude.{◌≡◌, ◌≤◌};
ghost use Rattle.rules.specs.Limits.{most_pages};
ghost use Rattle.rules.specs.Words.{page_in, flag_in, word_of, links, find_header};

use crate::state::Ring;
use rules::state::PageNo;

// The flag is the two low bits of a word, the page the bits above: a split needs no division, which a small core makes slowly.
const FLAG_BITS: u32 = 2;

const FLAG_MASK: u32 = (1 << FLAG_BITS) - 1;

// The page in a word.
pub fn page_in(w: u32) -> PageNo
    ensures { result ≡ page_in w }
{
    PageNo(w >> FLAG_BITS)
}

// The flag in a word. A number, as a word is any number: two of the four are those of a mark, and one is that of no word in shape.
pub fn flag_in(w: u32) -> u32
    ensures { result ≡ flag_in w }
{
    w & FLAG_MASK
}

// The word with a page and a flag. 64 bits wide, so that it holds the word of any page and any flag.
pub fn word_of(page: PageNo, flag: u32) -> u64
    ensures { result ≡ word_of page flag }
{
    4 * u64::from(page.0) + u64::from(flag)
}

impl Ring {
    // Whether the word of page p is n with this flag.
    pub(crate) fn links(&self, p: PageNo, n: PageNo, flag: u32) -> bool
        requires { p.0 ≤ most_pages }
        ensures { result ≡ links self.now.words p n flag }
    {
        u64::from(self.word_at(p)) == word_of(n, flag)
    }

    // The lowest page up to n, other than the reader page, whose word is HEADER. A word that the reader has prepared is no ring mark.
    pub(crate) fn find_header(&self) -> Option<(PageNo, PageNo)>
        requires { self.now.size.pages ≤ most_pages }
        ensures { result ≡ find_header self.now.words self.now.size.pages self.now.places.reader }
    {
        for i in 0..=self.size.pages {
            let p = PageNo(i);
            let w = self.word_at(p);
            if (p != self.places.reader) & (flag_in(w) == Ring::HEADER) {
                return Some((p, page_in(w)));
            }
        }
        None
    }
}
