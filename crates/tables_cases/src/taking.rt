//! What is taken of a case: its words, one after the other.

use crate::case::Case;
use crate::words::STEP;

impl Case {
    /// The next word, which stays; an empty one where a step ends.
    pub fn peek(&self) -> &str {
        match self.words.get(self.taken()) {
            Some(word) if word.as_str() != STEP => word.as_str(),
            _ => "",
        }
    }

    /// Takes the next word, which is to be there.
    pub fn take_word(&self) -> &str {
        let word = self.peek();
        if word.is_empty() {
            self.lacks("one more word");
        } else {
            self.pass(1);
        }
        word
    }

    /// Takes the next word where it is this one, and tells whether it is.
    pub fn skip(&self, word: &str) -> bool {
        let is_next = self.peek() == word;
        if is_next {
            self.pass(1);
        }
        is_next
    }

    /// Takes the next word, which is to be this one.
    pub fn expect(&self, word: &str) {
        if !self.skip(word) {
            self.lacks("another word at some place");
        }
    }

    /// Takes the next word, which is to be a number.
    pub fn take_number(&self) -> u64 {
        match self.take_word().parse() {
            Ok(number) => number,
            Err(_) => {
                self.lacks("a number in place of a word");
                0
            }
        }
    }

    /// Takes the next word, which is to be a number of things or an index.
    pub fn take_count(&self) -> usize {
        self.take_number() as usize
    }

    /// Takes the next word, which is to be an integer.
    pub fn take_integer(&self) -> i128 {
        let word = self.take_word();
        self.integer_of(word)
    }

    /// The integer that a word is.
    pub fn integer_of(&self, word: &str) -> i128 {
        match word.parse() {
            Ok(integer) => integer,
            Err(_) => {
                self.lacks("an integer in place of a word");
                0
            }
        }
    }

    /// Takes the number of a slot.
    pub fn take_slot(&self) -> u32 {
        let word = self.take_word();
        self.slot_of(word)
    }

    /// The number of a slot that a word is.
    pub fn slot_of(&self, word: &str) -> u32 {
        match word.parse() {
            Ok(slot) => slot,
            Err(_) => {
                self.lacks("the number of a slot in place of a word");
                0
            }
        }
    }

    /// The words that are left, those of later steps among them.
    pub(crate) fn ahead(&self) -> &[String] {
        self.words.as_slice().get(self.taken()..).unwrap_or(&[])
    }

    /// How many words of the step are left.
    pub fn left(&self) -> usize {
        place_of(STEP, self.ahead())
    }

    /// Takes so many words of the step, which are to be there.
    pub fn take_words(&self, count: usize) -> &[String] {
        let taken = self.ahead().get(..count).unwrap_or(&[]);
        if count > self.left() {
            self.lacks("more words");
        }
        self.pass(taken.len());
        taken
    }

    /// Takes the words of the step that are left.
    pub fn take_rest(&self) -> &[String] {
        let count = self.left();
        self.take_words(count)
    }

    /// How many words of the step stand before a mark; all where it isn't there.
    fn before(&self, mark: &str) -> usize {
        place_of(mark, self.ahead()).min(self.left())
    }

    /// Whether a mark stands in the step.
    pub fn finds(&self, mark: &str) -> bool {
        self.before(mark) < self.left()
    }

    /// Takes the words of the step before a mark, and the mark, which may be missing at the end.
    pub fn take_until(&self, mark: &str) -> &[String] {
        let count = self.before(mark);
        let part = self.take_words(count);
        self.skip(mark);
        part
    }

    /// How many steps begin here or further on.
    pub fn steps(&self) -> usize {
        let mut steps = 1usize;
        for word in self.ahead() {
            if word.as_str() == STEP {
                steps = steps.saturating_add(1);
            }
        }
        steps
    }

    /// Takes the end of a step, behind which there is another one or nothing.
    pub fn take_step_end(&self) {
        if self.left() > 0 {
            self.lacks("no words behind the end of a step");
        }
        self.pass(1);
    }

    /// Is to find no word left.
    pub fn take_end(&self) {
        if self.taken() < self.words.len() {
            self.lacks("no words behind its end");
        }
    }
}

/// Where a word stands first; behind all words where it doesn't.
fn place_of(word: &str, words: &[String]) -> usize {
    for (i, other) in words.iter().enumerate() {
        if other.as_str() == word {
            return i;
        }
    }
    words.len()
}
