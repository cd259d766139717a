//! What stands at the front of a text.
ghost use Rattle.std.specs.Prelude.{◌≡◌, ◌<◌, length, slice_index, IfOk, IfErr};
ghost use Rattle.pi_lex.specs.Items.{seen, FitsIn, item_len, IsFront, GoesOn, fault_from};
ghost use Rattle.pi_lex.specs.Kinds.{fault_shown};
ghost use Rattle.pi_syntax.specs.Tokens as spec;

use crate::blanks::{comment, is_white, line_comment_len, starts_comment, white_len};
use crate::fault::LexFault;
use crate::integers::integer;
use crate::names::{atom_or_word, is_atom_start, is_variable_start, variable};
use crate::quoted::{quoted_atom, quoted_text};
use crate::signs::{is_end_point, sign};

/// What stands at the front of a text. A number says how many characters it takes, and behind a quote at
/// which place the closing quote stands.
#[derive(Clone, Copy)]
pub(crate) enum Item {
    /// White space or a comment.
    Blank(usize),
    Variable(usize),
    Atom(usize),
    Word(usize),
    QuotedAtom(usize),
    Text(usize),
    Integer(i128, usize),
    Sign(usize),
    EndPoint,
    /// An integer past the largest.
    Wide,
    /// None of these.
    Bad,
}

/// The character at `index`, or that of code 0 past the end.
pub(crate) fn char_at(text: &[char], index: usize) -> char
    ensures { result ≡ slice_index text.now index }
{
    text.get(index).copied().unwrap_or('\0')
}

/// What stands at the front of a text that isn't at its end.
#[tactic(auto, unfolding(pi_syntax::specs::Tokens::item_at))]
pub(crate) fn item_at(text: &[char]) -> Item
    requires { 0 < length text.now }
    ensures value { seen text.now result ≡ spec.item_at text.now }
    ensures within { FitsIn text.now result }
{
    let first = text[0];
    if is_white(first) {
        Item::Blank(white_len(text))
    } else if first == '%' {
        Item::Blank(line_comment_len(text))
    } else if starts_comment(text) {
        comment(text)
    } else if is_variable_start(first) {
        variable(text)
    } else if is_atom_start(first) {
        atom_or_word(text)
    } else if first == '\'' {
        quoted_atom(text)
    } else if first == '"' {
        quoted_text(text)
    } else if first.is_ascii_digit() {
        integer(text)
    } else if is_end_point(text) {
        Item::EndPoint
    } else {
        sign(text)
    }
}

/// How many characters the item takes, or the fault that it is on its line.
pub(crate) fn item_len(item: Item, text: &[char], line: u32) -> Result<usize, LexFault>
    requires { FitsIn text.now item }
    ensures value { IfOk result (λ n. n ≡ item_len (seen text.now item)) }
    ensures within { IfOk result (λ n. IsFront n text.now) }
    ensures goes_on { IfOk result (λ _. GoesOn (seen text.now item)) }
    ensures fault { IfErr result (λ e. fault_shown e ≡ fault_from (seen text.now item) line) }
{
    match item {
        Item::Blank(len)
        | Item::Variable(len)
        | Item::Atom(len)
        | Item::Word(len)
        | Item::Integer(_, len)
        | Item::Sign(len) => Ok(len),
        Item::QuotedAtom(place) | Item::Text(place) => Ok(place + 1),
        Item::EndPoint => Ok(1),
        Item::Wide => Err(LexFault::WideInteger {
            line: u64::from(line),
        }),
        Item::Bad => Err(LexFault::BadToken {
            line: u64::from(line),
        }),
    }
}
