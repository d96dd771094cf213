// K9 to K11: nested writers, each from a fresh ring. Calls and no table of actions: a row would need a count beside its action.
use crate::steps::Shown;

fn k9() {
    text::section(b"K9");
    let mut shown = Shown::small_ring();
    shown.begin(10);
    shown.write();
    shown.begin(20);
    shown.writes(5);
    shown.begin(30);
    shown.writes(3);
    shown.receipt();
}

fn k10() {
    text::section(b"K10");
    let mut shown = Shown::small_ring();
    shown.begin(10);
    shown.begin(20);
    shown.writes(3);
    shown.begin(30);
    shown.writes(6);
    shown.commit_line();
    text::number_line(b"depth", u64::from(shown.ring.depth));
    text::number_line(b"committed", shown.ring.counts.committed);
    shown.receipt();
}

fn k11() {
    text::section(b"K11");
    let mut shown = Shown::small_ring();
    shown.write();
    for value in [10, 20, 30, 40, 50] {
        shown.begin(value);
    }
    shown.receipt();
}

pub(crate) fn run() {
    k9();
    k10();
    k11();
}
