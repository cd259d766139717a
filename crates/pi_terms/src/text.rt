//! Texts: names, and pieces of output.
ghost use Rattle.std.specs.Prelude.{◌≡◌, List, ℕ, length, IfOk, IsTrue, ◌↔◌};
ghost use Rattle.std.specs.String.{string_bytes};
ghost use Rattle.pi_terms.specs.Texts.{kept_bytes};

use crate::short::{MOST_BYTES, Short};
use std::alloc::{AllocError, Global};
use std::marker::Model;

/// A text: the name of an atom, a variable or a predicate, or a piece of output. A contract sees its bytes in UTF-8.
///
/// It takes 16 bytes, and none beside them where it is short, as most names are.
pub struct Text {
    kept: Kept,
}

/// Where the bytes of a text stand.
enum Kept {
    Here(Short),
    Apart(Box<String>),
}

// By hand, so that letting one go is a call and not its parts at each way out.
impl Drop for Text {
    fn drop(self) {
        let Text { kept } = self;
        match kept {
            Kept::Here(_) => {}
            Kept::Apart(_) => {}
        }
    }
}

impl Model for Text {
    ghost Value = { List ℕ };

    ghost view = { λ a. kept_bytes a.kept };
}

impl Text {
    ghost use Rattle.std.specs.Prelude.{◌≡◌, []};

    /// A text with these characters.
    pub fn new(alloc: Global, text: &str) -> Result<Text, AllocError>
        ensures ok { IfOk result (λ made. made ≡ text.now) }
    {
        if text.len() <= MOST_BYTES {
            return Ok(Text {
                kept: Kept::Here(Short::of(text)),
            });
        }
        let string = String::from_str(alloc, text)?;
        let kept = Box::new(alloc, string)?;
        Ok(Text {
            kept: Kept::Apart(kept),
        })
    }

    /// The text without characters.
    pub fn empty() -> Text
        ensures { result ≡ [] }
    {
        Text {
            kept: Kept::Here(Short::of("")),
        }
    }

    /// The text that a string holds, which isn't copied where it is long.
    pub fn from_string(alloc: Global, string: String) -> Result<Text, AllocError>
        ensures ok { IfOk result (λ made. made ≡ string_bytes string) }
    {
        if string.len() <= MOST_BYTES {
            return Ok(Text {
                kept: Kept::Here(Short::of(string.as_str())),
            });
        }
        let kept = Box::new(alloc, string)?;
        Ok(Text {
            kept: Kept::Apart(kept),
        })
    }

    pub fn as_str(&self) -> &str
        ensures { result.now ≡ self.now }
    {
        match &self.kept {
            Kept::Here(short) => short.as_str(),
            Kept::Apart(string) => string.as_str(),
        }
    }

    /// Another text with the same characters.
    pub fn copy(&self, alloc: Global) -> Result<Text, AllocError>
        ensures ok { IfOk result (λ made. made ≡ self.now) }
    {
        Text::new(alloc, self.as_str())
    }
}
