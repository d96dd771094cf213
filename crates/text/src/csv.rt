// Actions and their answers as comma-separated values, for a table.
use crate::names::Values;
use crate::put::{Line, print_line};
use ring::{Action, Numbers};

pub fn csv_heading() -> bool {
    print_line("index,offset,action,value,answer,first,second")
}

// An action that was made: its index and its offset in the trace, and its answer.
pub fn csv_line(index: u64, offset: u64, action: Action, n: Numbers) -> bool {
    let mut line = Line::new();
    write!(line, "{index},{offset},");
    match action {
        Action::Begin(value) => write!(line, "Begin,{value},"),
        Action::Write => write!(line, "Write,,"),
        Action::Read => write!(line, "Read,,"),
    }
    line.kind(n.code);
    match Values::from(n) {
        Values::None => write!(line, ",,"),
        Values::One(first) => write!(line, ",{first},"),
        Values::Two(first, second) => write!(line, ",{first},{second}"),
    }
    line.print()
}
