//! Which calls are signs, and which names begin a declaration.
ghost use Rattle.std.specs.Prelude.{◌≡◌};
ghost use Rattle.pi_syntax.specs.Tokens.{is_one_of};
ghost use Rattle.pi_print_program.specs.Signs as spec;
ghost use Rattle.pi_print_program.specs.Canonical.{declaration_words};
ghost use Rattle.pi_print_program.specs.Words.{words_shown};

const TWO_PLACE_SIGNS: [&str; 44] = [
    "#<=>", "#=>", "#\\/", "#^", "#/\\", "=", "!=", "==", "!==", "=:=", "=\\=", "<", "=<", ">",
    ">=", "@<", "@=<", "@>", "@>=", ":=", "::", "in", "notin", "#=", "#!=", "#<", "#=<", "#>",
    "#>=", "\\/", "^", "/\\", ">>", "<<", "+", "-", "++", "*", "//", "/>", "/<", "mod", "rem",
    "**",
];

const PREFIX_WORDS: [&str; 2] = ["not", "once"];

const PREFIX_SIGNS: [&str; 4] = ["-", "+", "~", "#~"];

const DECLARATION_WORDS: [&str; 5] = ["import", "table", "index", "module", "private"];

fn is_among(words: &[&str], name: &str) -> bool
    ensures { result ≡ is_one_of (words_shown words.now) name.now }
{
    for word in words {
        if name == *word {
            return true;
        }
    }
    false
}

/// Whether a call of so many arguments is a sign between two operands.
#[tactic(auto, unfolding(crate::specs::Signs::is_two_place))]
pub(crate) fn is_two_place(name: &str, arity: usize) -> bool
    ensures { result ≡ spec.is_two_place name.now arity }
{
    arity == 2 && is_among(&TWO_PLACE_SIGNS, name)
}

/// Whether a call of so many arguments is a word before an operand.
#[tactic(auto, unfolding(crate::specs::Signs::is_prefix_word))]
pub(crate) fn is_prefix_word(name: &str, arity: usize) -> bool
    ensures { result ≡ spec.is_prefix_word name.now arity }
{
    arity == 1 && is_among(&PREFIX_WORDS, name)
}

/// Whether a call of so many arguments is a sign before an operand, and no word.
#[tactic(auto, unfolding(crate::specs::Signs::is_prefix_sign))]
pub(crate) fn is_prefix_sign(name: &str, arity: usize) -> bool
    ensures { result ≡ spec.is_prefix_sign name.now arity }
{
    arity == 1 && is_among(&PREFIX_SIGNS, name)
}

/// Whether a name begins a declaration.
pub(crate) fn is_declaration_word(name: &str) -> bool
    ensures { result ≡ is_one_of declaration_words name.now }
{
    is_among(&DECLARATION_WORDS, name)
}
