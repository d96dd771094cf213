// K1 to K8: one ring of two pages. Calls and no table of actions: between them stand the lines that a case shows of the ring.
use crate::steps::Shown;

fn k1() -> Shown {
    text::heading(b"K1");
    let mut shown = Shown::small_ring();
    shown.words_line();
    shown.begin(70);
    shown.writes(3);
    shown
}

fn k2(shown: &mut Shown) {
    text::section(b"K2");
    shown.begin(71);
    shown.writes(5);
    shown.commit_line();
}

fn k3(shown: &mut Shown) {
    text::section(b"K3");
    shown.begin(72);
    shown.writes(2);
    shown.words_line();
    text::number_line(b"overwritten", shown.ring.counts.overwritten);
}

fn k4(shown: &mut Shown) {
    text::section(b"K4");
    shown.read();
}

fn k5(shown: &mut Shown) {
    text::section(b"K5");
    shown.write();
    shown.words_line();
    shown.write();
    shown.words_line();
    shown.writes(2);
}

fn k6(shown: &mut Shown) {
    text::section(b"K6");
    shown.read();
    shown.read();
    shown.words_line();
    shown.read();
    shown.words_line();
    text::number_line(b"reader page", u64::from(shown.ring.places.reader.0));
}

fn k7(shown: &mut Shown) {
    text::section(b"K7");
    shown.read();
    shown.read();
}

fn k8(shown: &mut Shown) {
    text::section(b"K8");
    shown.writes(2);
    shown.read();
    shown.read();
    shown.words_line();
    shown.read();
    shown.words_line();
    shown.read();
    shown.receipt();
}

pub(crate) fn run() {
    let mut shown = k1();
    k2(&mut shown);
    k3(&mut shown);
    k4(&mut shown);
    k5(&mut shown);
    k6(&mut shown);
    k7(&mut shown);
    k8(&mut shown);
}
