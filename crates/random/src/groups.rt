// Groups of random states, and what each of the three actions makes of a state.
ghost use Rattle.std.specs.Prelude.{◌+◌, ◌≤◌};

use crate::breaks::{Break, break_ring};
use crate::digest::Digest;
use crate::draws::Generator;
use crate::states::draw_ring;
use ring::{Action, Ring};
use text::Tally;

const SHAPE_GROUPS: u32 = 10;

const IN_SHAPE: u32 = 4000;

// A state, in shape where nothing is broken.
fn draw_state(s: &mut Generator, broken: Option<Break>) -> Ring {
    let setup = s.setup();
    let mut ring = draw_ring(s, setup);
    if let Some(kind) = broken {
        break_ring(s, setup, kind, &mut ring);
    }
    ring
}

// All states: the seed of the first, and how many there are of each break.
#[derive(Clone, Copy)]
pub(crate) struct States {
    pub(crate) first_seed: u32,
    pub(crate) of_break: u32,
    ghost seeds_fit: { first_seed ≤ 3000000 },
    ghost few: { of_break ≤ 1000 },
}

// What `run` keeps between its calls is any state of it, so that it may be called in each: `IsAlwaysCallable` speaks of the first alone. A group in shape
// has a size of its own and no break, so that there are two loops.
impl States {
    fn in_shape<F: FnMut(Digest, Generator, Ring) -> Digest>(self, mut run: F)
        requires { (state : F) (h : _) (s : _) (ring : _) → F.pre state h s ring }
    {
        for group in 0..SHAPE_GROUPS {
            let first = self.first_seed + group * IN_SHAPE;
            let digest = run_group(first, IN_SHAPE, None, &mut run);
            text::digest_line(b"in shape ", 1 + u64::from(group), b"", digest.number());
        }
    }

    fn out_of_shape<F: FnMut(Digest, Generator, Ring) -> Digest>(self, mut run: F)
        requires { (state : F) (h : _) (s : _) (ring : _) → F.pre state h s ring }
    {
        let first = self.first_seed + SHAPE_GROUPS * IN_SHAPE;
        for (i, kind) in Break::ALL.iter().enumerate() {
            let seed = first + (i as u32) * self.of_break;
            let digest = run_group(seed, self.of_break, Some(*kind), &mut run);
            text::digest_line(b"break ", 1 + (i as u64), b"", digest.number());
        }
    }

    // A line for each group of states in shape and one for the states of each break, with the digest of what `run` makes of them.
    pub(crate) fn each_group<F: FnMut(Digest, Generator, Ring) -> Digest>(self, mut run: F)
        requires { (state : F) (h : _) (s : _) (ring : _) → F.pre state h s ring }
    {
        self.in_shape(&mut run);
        self.out_of_shape(run);
    }
}

// The digest of so many states, from a seed on.
fn run_group<F: FnMut(Digest, Generator, Ring) -> Digest>(
    first: u32,
    states: u32,
    broken: Option<Break>,
    mut run: F,
) -> Digest
    requires bounds { first + states ≤ 4000000 }
    requires callable { F.IsAlwaysCallable run }
{
    let mut h = Digest::EMPTY;
    for seed in first..first + states {
        let mut s = Generator::new(seed);
        let ring = draw_state(&mut s, broken);
        h = run(h, s, ring);
    }
    h
}

// An action on a state: the answer, the ring and its receipt folded in.
fn fold_action(h: Digest, ring: Ring, action: Action, tally: &mut Tally) -> Digest {
    let made = ring.act(action);
    h.made(&made, tally).receipt(made.ring.receipt())
}

// A state's receipt, and then each action on the state itself.
fn run_state(h: Digest, mut s: Generator, ring: Ring, tally: &mut Tally) -> Digest {
    let mut d = h.receipt(ring.receipt());
    for action in [Action::Begin(s.any()), Action::Write, Action::Read] {
        d = fold_action(d, ring, action, tally);
    }
    d
}

pub(crate) fn run() {
    let mut tally = text::no_answers();
    text::section(b"Random states: each of the three actions on 71000 states");
    let states = States {
        first_seed: 1000000,
        of_break: 1000,
    };
    states.each_group(|h, s, ring| run_state(h, s, ring, &mut tally));
    text::section(b"Answers to the states");
    text::tally(&tally);
}
