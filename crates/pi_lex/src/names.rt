//! Variables, unquoted atoms and reserved words.
ghost use Rattle.std.specs.Prelude.{◌≡◌, ◌<◌, ◌≤◌, length, slice_index, IsTrue};
ghost use Rattle.std.specs.Str.{bytes_eq};
ghost use Rattle.pi_lex.specs.Items.{seen, FitsIn};
ghost use Rattle.pi_syntax.specs.Tokens as spec;

use crate::item::Item;

/// Whether a variable begins with the character.
pub(crate) fn is_variable_start(c: char) -> bool
    ensures value { result ≡ spec.is_variable_start c }
    ensures goes_on { IsTrue result → IsTrue (spec.is_name_part c) }
{
    c.is_ascii_uppercase() || c == '_'
}

/// Whether an unquoted atom begins with the character.
pub(crate) fn is_atom_start(c: char) -> bool
    ensures value { result ≡ spec.is_atom_start c }
    ensures goes_on { IsTrue result → IsTrue (spec.is_name_part c) }
{
    c.is_ascii_lowercase() || (!c.is_ascii() && unicode_ident::is_xid_start(c))
}

fn is_name_part(c: char) -> bool
    ensures { result ≡ spec.is_name_part c }
{
    c.is_ascii_alphanumeric() || c == '_' || (!c.is_ascii() && unicode_ident::is_xid_continue(c))
}

/// How many characters at the front are those of one name.
pub(crate) fn name_len(text: &[char]) -> usize
    ensures value { result ≡ spec.name_len text.now }
    ensures within { result ≤ length text.now }
    ensures some { IsTrue (spec.is_name_part (slice_index text.now 0)) → 0 < result }
{
    text.iter().take_while(|c| is_name_part(**c)).count()
}

/// A variable, at its first character.
#[tactic(auto, unfolding(pi_syntax::specs::Tokens::variable))]
pub(crate) fn variable(text: &[char]) -> Item
    requires { IsTrue (spec.is_name_part (slice_index text.now 0)) }
    ensures value { seen text.now result ≡ spec.variable text.now }
    ensures within { FitsIn text.now result }
{
    Item::Variable(name_len(text))
}

/// An unquoted atom or a reserved word, at its first character.
#[tactic(auto, unfolding(pi_syntax::specs::Tokens::atom_or_word))]
pub(crate) fn atom_or_word(text: &[char]) -> Item
    requires { IsTrue (spec.is_name_part (slice_index text.now 0)) }
    ensures value { seen text.now result ≡ spec.atom_or_word text.now }
    ensures within { FitsIn text.now result }
{
    let len = name_len(text);
    if is_reserved(&text[..len]) {
        Item::Word(len)
    } else {
        Item::Atom(len)
    }
}

#[tactic(auto, unfolding(pi_syntax::specs::Tokens::is_reserved))]
fn is_reserved(name: &[char]) -> bool
    ensures { result ≡ spec.is_reserved name.now }
{
    spells(name, "if")
        | spells(name, "then")
        | spells(name, "elseif")
        | spells(name, "else")
        | spells(name, "end")
        | spells(name, "foreach")
        | spells(name, "in")
        | spells(name, "notin")
        | spells(name, "while")
        | spells(name, "do")
        | spells(name, "not")
        | spells(name, "once")
        | spells(name, "div")
        | spells(name, "mod")
        | spells(name, "rem")
}

/// Whether the characters are those of an ASCII word.
pub(crate) fn spells(name: &[char], word: &str) -> bool
    ensures { result ≡ bytes_eq name.now word.now }
{
    let word = word.as_bytes();
    if name.len() != word.len() {
        return false;
    }
    for at in 0..name.len() {
        if name[at] != char::from(word[at]) {
            return false;
        }
    }
    true
}
