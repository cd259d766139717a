//! Words of a case: how many they are.

use tables_cases::Case;

/// Tells how many words a case has, and the first and the last one.
pub fn answer(case: &Case) {
    let words = case.take_rest();
    case.tell_count(words.len());
    if let (Some(first), Some(last)) = (words.first(), words.last()) {
        case.tell(" ");
        case.tell(first.as_str());
        case.tell(" ");
        case.tell(last.as_str());
    }
}
