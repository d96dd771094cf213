// The generator: a number that each draw replaces.
ghost use Rattle.std.specs.Prelude.{◌≡◌, ◌+◌, ◌*◌, ◌%◌, ◌<◌, ◌≤◌};

use ring::PageNo;
use rules::state::Size;

const FACTOR: u64 = 48271;

const PRIME: u64 = 2147483647;

// A set-up that states are drawn with.
#[derive(Clone, Copy)]
pub(crate) struct Setup {
    pub(crate) size: Size,
    ghost few_pages: { size.pages ≤ 16 },
    ghost some_slots: { 1 ≤ size.slots },
    ghost few_slots: { size.slots ≤ 16 },
}

#[derive(Drop)]
pub(crate) struct Generator {
    last: u32,
}

impl Generator {
    // The generator for a seed, with its first three draws thrown away.
    pub(crate) fn new(seed: u32) -> Generator {
        let mut s = Generator { last: seed };
        for _ in 0..3 {
            s.draw();
        }
        s
    }

    // One draw.
    fn draw(&mut self) -> u32
        ensures value { result ≡ (48271 * self.old.last) % 2147483647 }
        ensures s_after { self.new.last ≡ result }
    {
        let product = FACTOR * u64::from(self.last);
        self.last = (product % PRIME) as u32;
        self.last
    }

    pub(crate) fn below(&mut self, n: u32) -> u32
        requires { 0 < n }
        ensures { result < n }
    {
        self.draw() % n
    }

    // True one time in n.
    pub(crate) fn is_one_in(&mut self, n: u32) -> bool
        requires { 0 < n }
    {
        self.below(n) == 0
    }

    // Any 32-bit number.
    pub(crate) fn any(&mut self) -> u32 {
        let high = self.below(65536);
        let low = self.below(65536);
        65536 * high + low
    }

    // How far a number goes past its limit.
    pub(crate) fn excess(&mut self) -> u32
        ensures { result ≤ 1000000 }
    {
        if self.is_one_in(2) {
            return 0;
        }
        1 + self.below(1000000)
    }

    // x, or a number above it.
    pub(crate) fn over(&mut self, x: u32) -> u32
        requires { x ≤ 17 }
        ensures { result ≤ x + 1000000 }
    {
        x + self.excess()
    }

    pub(crate) fn setup(&mut self) -> Setup {
        let pages = 2 + self.below(15);
        let slots = 1 + self.below(16);
        let mode = self.below(2);
        Setup {
            size: Size { pages, slots, mode },
        }
    }

    // One of the ring's pages and its reader page.
    pub(crate) fn page(&mut self, setup: Setup) -> PageNo
        ensures { result.0 ≤ setup.size.pages }
    {
        PageNo(self.below(setup.size.pages + 1))
    }

    // A number over every page's.
    pub(crate) fn no_page(&mut self, setup: Setup) -> PageNo
        ensures { result.0 ≤ 1000017 }
    {
        PageNo(self.over(setup.size.pages + 1))
    }
}
