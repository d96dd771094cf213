// The counts of a random state: small ones, and three kinds near the limit. Each names all six: what is 0 is of its kind, and no default.
use crate::draws::Generator;
use ring::Ring;
use rules::state::Counts;

fn small(s: &mut Generator) -> Counts {
    let handed = u64::from(s.below(100));
    let overwritten = u64::from(s.below(100));
    let committed = handed + overwritten + u64::from(s.below(100));
    let taken = committed + u64::from(s.below(100));
    let dropped = u64::from(s.below(100));
    let begun = taken + dropped + u64::from(s.below(100));
    Counts {
        begun,
        taken,
        committed,
        handed,
        overwritten,
        dropped,
    }
}

fn near_the_limit(s: &mut Generator) -> Counts {
    let dropped = u64::from(s.below(3));
    let taken = Ring::MOST_COUNT - dropped - u64::from(s.below(3));
    let committed = taken - u64::from(s.below(3));
    let overwritten = u64::from(s.below(3));
    let handed = committed - overwritten - u64::from(s.below(3));
    Counts {
        begun: Ring::MOST_COUNT,
        taken,
        committed,
        handed,
        overwritten,
        dropped,
    }
}

fn all_dropped() -> Counts {
    Counts {
        begun: Ring::MOST_COUNT,
        taken: 0,
        committed: 0,
        handed: 0,
        overwritten: 0,
        dropped: Ring::MOST_COUNT,
    }
}

fn all_committed(s: &mut Generator) -> Counts {
    let left = u64::from(s.below(3));
    Counts {
        begun: Ring::MOST_COUNT,
        taken: Ring::MOST_COUNT,
        committed: Ring::MOST_COUNT,
        handed: left,
        overwritten: Ring::MOST_COUNT - left,
        dropped: 0,
    }
}

// A draw chooses one of four functions: a table would list the four too, and want an index.
pub(crate) fn draw_counts(s: &mut Generator) -> Counts {
    match s.below(4) {
        0 => small(s),
        1 => near_the_limit(s),
        2 => all_dropped(),
        _ => all_committed(s),
    }
}
