//! Lines that say something for each case of their file.

use crate::case::Case;
use crate::words::words_of;

/// How such a line begins.
pub(crate) const GIVEN: char = '&';

/// What takes the words of these lines.
pub trait Given {
    /// Takes the words of a line.
    fn take_line(&mut self, line: &Case);
}

/// Has each of these lines of a text taken, and notes their first fault.
pub fn take_given<G: Given>(case: &Case, text: &str, given: &mut G) {
    for line in text.lines() {
        if let Some(line) = line.strip_prefix(GIVEN) {
            take_line(case, line, given);
        }
    }
}

fn take_line<G: Given>(case: &Case, line: &str, given: &mut G) {
    match words_of(case.alloc, line) {
        Ok(words) => {
            let line = Case::new(case.alloc, words);
            given.take_line(&line);
            line.take_end();
            case.fail_as(&line);
        }
        Err(problem) => case.fail(problem),
    }
}
