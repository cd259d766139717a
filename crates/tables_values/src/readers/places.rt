//! Texts, and the lines of their parts.

use pi_where::{NoLines, PartLines, lines_of_part};
use tables_cases::{Case, Problem, bytes_of};

/// Tells the lines of each part of the text that a line is, in order: the first one, and the last one where that is another; or
/// that there is no part.
pub fn answer(case: &Case, line: &str) {
    let text = bytes_of(case, line);
    for number in 1..u64::MAX {
        match lines_of_part(case.alloc, text.as_slice(), number) {
            Ok(lines) => tell_lines(lines, number, case),
            Err(reason) => {
                tell_end(reason, number, case);
                return;
            }
        }
    }
}

fn tell_lines(lines: PartLines, number: u64, case: &Case) {
    if number > 1 {
        case.tell(" ");
    }
    case.tell_number(lines.first);
    if lines.last != lines.first {
        case.tell("-");
        case.tell_number(lines.last);
    }
}

/// Tells why there is no part of this number, where it isn't that all parts were told.
fn tell_end(reason: NoLines, number: u64, case: &Case) {
    match reason {
        NoLines::NoPart => {
            if number == 1 {
                case.tell("no part");
            }
        }
        NoLines::NoTokens => case.tell("no tokens"),
        NoLines::Memory => case.fail(Problem::Memory),
    }
}
