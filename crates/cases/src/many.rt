// 65537 readings in stop mode, each written and then read until Empty. The lines of the actions are not printed.
use crate::steps::fresh;
use ring::{Action, Answer, ReadingNo, Ring};
use text::Tally;

pub(crate) const READINGS: u32 = 65537;

// A proved loop has to end; no reading here takes as many actions as this.
const MOST_ACTIONS: u32 = 1000;

// A ring of which each answer is counted.
#[derive(Drop)]
pub(crate) struct Counted {
    pub(crate) ring: Ring,
    pub(crate) tally: Tally,
}

impl Counted {
    // The ring of the many readings, with the line of its set-up.
    pub(crate) fn fresh() -> Counted {
        Counted {
            ring: fresh(16, 16, Ring::STOP),
            tally: text::no_answers(),
        }
    }

    fn act(&mut self, action: Action) -> Answer {
        let made = self.ring.act(action);
        text::count_answer(&mut self.tally, made.answer);
        self.ring = made.ring;
        made.answer
    }

    // A reading with this value, begun, and Writes until the writer's work has ended.
    pub(crate) fn reading(&mut self, value: u32) {
        self.act(Action::Begin(value));
        for _ in 0..MOST_ACTIONS {
            if matches!(
                self.act(Action::Write),
                Answer::Committed(_) | Answer::Dropped
            ) {
                return;
            }
        }
    }

    // Reads until Empty; how many of them gave reading i.
    fn read_out(&mut self, i: u32) -> u64 {
        let mut events: u64 = 0;
        for _ in 0..MOST_ACTIONS {
            let answer = self.act(Action::Read);
            if answer == Answer::Empty {
                return events;
            }
            if answer == Answer::Event(ReadingNo(i), i) {
                events = events.wrapping_add(1);
            }
        }
        events
    }
}

pub(crate) fn run() {
    text::section(b"65537 readings in stop mode, each written and then read until Empty");
    let mut counted = Counted::fresh();
    let mut events: u64 = 0;
    // reading i has value i
    for i in 0..READINGS {
        counted.reading(i);
        events = events.wrapping_add(counted.read_out(i));
    }
    text::tally(&counted.tally);
    text::number_line(b"Event(i, i)", events);
    text::receipt(counted.ring.size, counted.ring.receipt());
}
