//! What is told of a case: its answer, piece by piece.

use crate::case::Case;
use crate::nodes::is_plain;
use std::fmt;

impl Case {
    /// Writes a text.
    pub fn tell(&self, text: &str) {
        let mut answer = self.take_answer();
        let done = answer.push_str(text);
        self.put_answer(answer);
        self.done(done);
    }

    /// Writes what can be shown.
    pub fn tell_shown<T: fmt::Display + Drop>(&self, shown: T) {
        let mut answer = self.take_answer();
        let done = write!(answer, "{shown}");
        self.put_answer(answer);
        self.done(done);
    }

    /// Writes a character.
    pub fn tell_character(&self, c: char) {
        self.tell_shown(c);
    }

    /// Writes a number.
    pub fn tell_number(&self, number: u64) {
        self.tell_shown(number);
    }

    /// Writes a number of things or an index.
    pub fn tell_count(&self, count: usize) {
        self.tell_shown(count);
    }

    /// Writes an integer.
    pub fn tell_integer(&self, integer: i128) {
        self.tell_shown(integer);
    }

    /// Writes whether something holds.
    pub fn tell_whether(&self, holds: bool) {
        self.tell(if holds { "yes" } else { "no" });
    }

    /// How many bytes are told so far.
    pub fn told(&self) -> usize {
        let answer = self.take_answer();
        let count = answer.len();
        self.put_answer(answer);
        count
    }

    /// Whether this text is told from a place on.
    fn tells(&self, from: usize, text: &str) -> bool {
        let answer = self.take_answer();
        let is_told = answer.as_str().get(from..).unwrap_or("") == text;
        self.put_answer(answer);
        is_told
    }

    /// Writes what another case tells, where it isn't what this one tells from a place on.
    pub fn tell_change(&self, from: usize, other: &Case) {
        let other = other.take_answer();
        if !self.tells(from, other.as_str()) {
            self.tell(" and then ");
            self.tell(other.as_str());
        }
    }

    /// Writes what this case tells over the raw store, where that is something else, and notes its fault. That they differ
    /// stands at the end too, which is told of a long answer.
    pub fn tell_raw(&self, raw: &Case) {
        self.fail_as(raw);
        let answer = raw.take_answer();
        if !self.tells(0, answer.as_str()) {
            self.tell(" BUT OVER THE RAW STORE ");
            self.tell(answer.as_str());
            self.tell(", NOT THE SAME");
        }
    }

    /// Writes what stands between things, in front of each but the first one, whose number is 0.
    pub fn tell_between(&self, i: usize, between: &str) {
        if i > 0 {
            self.tell(between);
        }
    }

    /// Writes what stands between answers, where this isn't the first one.
    pub fn begin(&self, between: &str) {
        if self.told() > 0 {
            self.tell(between);
        }
    }

    /// Writes a name as a word.
    pub fn tell_name(&self, name: &str) {
        if is_plain(name) {
            return self.tell(name);
        }
        self.tell_character('\'');
        for c in name.chars() {
            if c == ' ' {
                self.tell("\\s");
            } else {
                self.tell_escaped_character(c);
            }
        }
        self.tell_character('\'');
    }

    /// Writes a text whose `\`, tabs and line feeds are escaped.
    pub fn tell_escaped(&self, text: &str) {
        for c in text.chars() {
            self.tell_escaped_character(c);
        }
    }

    /// Writes a character, escaped where it is a `\`, a tab or a line feed.
    pub fn tell_escaped_character(&self, c: char) {
        match c {
            '\n' => self.tell("\\n"),
            '\t' => self.tell("\\t"),
            '\\' => self.tell("\\\\"),
            other => self.tell_character(other),
        }
    }

    /// Writes bytes on one line: each that is no visible sign of ASCII as `\xff`.
    pub fn tell_bytes(&self, bytes: &[u8]) {
        for byte in bytes {
            match byte {
                b'!'..=b'~' => self.tell_character(char::from(*byte)),
                _ => self.tell_byte(*byte),
            }
        }
    }

    /// Writes a byte as `\xff`.
    fn tell_byte(&self, byte: u8) {
        let mut answer = self.take_answer();
        let done = write!(answer, "\\x{byte:02x}");
        self.put_answer(answer);
        self.done(done);
    }
}
