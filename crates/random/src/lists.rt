// Random lists of actions, each from a fresh ring.
ghost use Rattle.std.specs.Prelude.{◌<◌, ◌≤◌};

use crate::digest::Digest;
use crate::draws::Generator;
use ring::{Action, Ring, Step};
use text::Tally;

const ACTIONS: u32 = 500;

// A group has one N and one mode: N from 2 to 16, in two modes.
const GROUPS: u32 = 30;

// Set-ups of a group: S from 1 to 16.
const SETUPS: u32 = 16;

// A list before its first action. Its generator and its set-up depend on its number.
#[derive(Drop)]
pub(crate) struct List {
    number: u32,
    pub(crate) s: Generator,
    pub(crate) made: Step,
}

// All lists: the seed of the first, and how many there are of each set-up.
#[derive(Clone, Copy)]
pub(crate) struct Lists {
    pub(crate) first_seed: u32,
    pub(crate) of_setup: u32,
    ghost seeds_fit: { first_seed ≤ 2000000 },
    ghost some: { 0 < of_setup },
    ghost few: { of_setup ≤ 42 },
}

impl Lists {
    fn list(self, number: u32) -> List
        requires { number < 20160 }
    {
        let setup = number / self.of_setup;
        List {
            number,
            s: Generator::new(self.first_seed + number),
            made: Ring::fresh(2 + setup / 32, 1 + setup % 16, (setup / 16) % 2),
        }
    }

    // The digest of a group's lists.
    fn group<F: FnMut(Digest, List) -> Digest>(self, group: u32, mut run: F) -> Digest
        requires group { group < 30 }
        requires callable { F.IsAlwaysCallable run }
    {
        let lists = SETUPS * self.of_setup;
        let first = lists * group;
        let mut h = Digest::EMPTY;
        for number in first..first + lists {
            h = run(h, self.list(number));
        }
        h
    }

    // A line for each group, with the digest of what `run` makes of its lists.
    pub(crate) fn each_group<F: FnMut(Digest, List) -> Digest>(self, mut run: F)
        requires { (state : F) (h : _) (list : _) → F.pre state h list }
    {
        for group in 0..GROUPS {
            group_line(group, self.group(group, &mut run));
        }
    }
}

fn group_line(group: u32, digest: Digest) {
    let n = 2 + u64::from(group / 2);
    let mode: &[u8] = if group % 2 == 0 {
        b", overwrite"
    } else {
        b", stop"
    };
    text::digest_line(b"N = ", n, mode, digest.number());
}

// Of a hundred actions: below which draw a Begin is made, and below which a Write.
#[derive(Clone, Copy)]
struct Shares {
    begin: u32,
    write: u32,
}

fn shares_of(remainder: u32) -> Shares {
    match remainder {
        0 => Shares {
            begin: 15,
            write: 75,
        },
        1 => Shares {
            begin: 20,
            write: 95,
        },
        _ => Shares {
            begin: 35,
            write: 85,
        },
    }
}

fn draw_action(s: &mut Generator, shares: Shares) -> Action {
    match s.below(100) {
        d if d < shares.begin => Action::Begin(s.any()),
        d if d < shares.write => Action::Write,
        _ => Action::Read,
    }
}

// A list, with its answers, rings and receipt folded in.
fn run_list(h: Digest, mut list: List, tally: &mut Tally) -> Digest {
    let shares = shares_of(list.number % 3);
    let mut made = list.made;
    let mut d = h.made(&made, tally);
    for _ in 0..ACTIONS {
        made = made.ring.act(draw_action(&mut list.s, shares));
        d = d.made(&made, tally);
    }
    d.receipt(made.ring.receipt())
}

pub(crate) fn run() {
    let mut tally = text::no_answers();
    text::heading(b"Random lists: 20160 lists of 500 actions, 42 for each set-up");
    let lists = Lists {
        first_seed: 1,
        of_setup: 42,
    };
    lists.each_group(|h, list| run_list(h, list, &mut tally));
    text::section(b"Answers to the lists");
    text::tally(&tally);
}
