//! Tables of words.

/// What stands in the first row with this word. Where a table is looked into, nothing else is done in that function: each call
/// beside it would have the whole table in its proof.
pub fn named<T: Copy>(rows: &[(&str, T)], word: &str) -> Option<T> {
    for (name, value) in rows {
        if *name == word {
            return Some(*value);
        }
    }
    None
}
