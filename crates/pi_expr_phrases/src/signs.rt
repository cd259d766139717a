//! Which terminal a token is.
ghost use Rattle.std.specs.Prelude.{◌≡◌, [], ◌∷◌, unwrap_or};
ghost use Rattle.pi_lex.specs.Kinds.{token_shown, IsNatural};
ghost use Rattle.pi_syntax.specs.Terminals as t;
ghost use Rattle.pi_expr_phrases.specs.Rows.{rows_shown, found_shown};
ghost use Rattle.pi_expr_phrases.specs.Shown.{terminal_shown};

use crate::natural::Natural;
use crate::phrase::Line;
use crate::terminal::{Mark, Terminal};
use pi_lex::TokenKind;

/// A spelling and its terminal.
type Row = (&'static str, Terminal<'static>);

const PUNCTUATION: [Row; 14] = [
    ("(", Terminal::Mark(Mark::OpenParen)),
    (")", Terminal::Mark(Mark::CloseParen)),
    ("[", Terminal::Mark(Mark::OpenBracket)),
    ("]", Terminal::Mark(Mark::CloseBracket)),
    ("{", Terminal::Mark(Mark::OpenBrace)),
    ("}", Terminal::Mark(Mark::CloseBrace)),
    (",", Terminal::Mark(Mark::Comma)),
    (";", Terminal::Mark(Mark::Semicolon)),
    ("->", Terminal::Mark(Mark::Arrow)),
    ("|", Terminal::Mark(Mark::Bar)),
    (":", Terminal::Mark(Mark::Colon)),
    (".", Terminal::Mark(Mark::Dot)),
    ("$", Terminal::Mark(Mark::Dollar)),
    ("@", Terminal::Mark(Mark::At)),
];

const ARITHMETIC: [Row; 15] = [
    ("+", Terminal::Mark(Mark::Plus)),
    ("-", Terminal::Mark(Mark::Minus)),
    ("++", Terminal::Joint(Line::Sum, "++")),
    ("*", Terminal::Joint(Line::Product, "*")),
    ("//", Terminal::Joint(Line::Product, "//")),
    ("/>", Terminal::Joint(Line::Product, "/>")),
    ("/<", Terminal::Joint(Line::Product, "/<")),
    (">>", Terminal::Joint(Line::Shift, ">>")),
    ("<<", Terminal::Joint(Line::Shift, "<<")),
    ("\\/", Terminal::Joint(Line::BitOr, "\\/")),
    ("^", Terminal::Joint(Line::BitXor, "^")),
    ("/\\", Terminal::Joint(Line::BitAnd, "/\\")),
    ("~", Terminal::Mark(Mark::Complement)),
    ("**", Terminal::Mark(Mark::Power)),
    ("..", Terminal::Mark(Mark::Dots)),
];

const RELATIONS: [Row; 17] = [
    ("=", Terminal::Relation("=")),
    ("!=", Terminal::Relation("!=")),
    ("==", Terminal::Relation("==")),
    ("!==", Terminal::Relation("!==")),
    ("=:=", Terminal::Relation("=:=")),
    ("=\\=", Terminal::Relation("=\\=")),
    ("<", Terminal::Relation("<")),
    ("=<", Terminal::Relation("=<")),
    ("<=", Terminal::Relation("=<")),
    (">", Terminal::Relation(">")),
    (">=", Terminal::Relation(">=")),
    ("@<", Terminal::Relation("@<")),
    ("@=<", Terminal::Relation("@=<")),
    ("@>", Terminal::Relation("@>")),
    ("@>=", Terminal::Relation("@>=")),
    (":=", Terminal::Relation(":=")),
    ("::", Terminal::Relation("::")),
];

const CONSTRAINTS: [Row; 6] = [
    ("#<=>", Terminal::Joint(Line::Equivalence, "#<=>")),
    ("#=>", Terminal::Joint(Line::Implication, "#=>")),
    ("#\\/", Terminal::Joint(Line::ConstraintOr, "#\\/")),
    ("#^", Terminal::Joint(Line::ConstraintXor, "#^")),
    ("#/\\", Terminal::Joint(Line::ConstraintAnd, "#/\\")),
    ("#~", Terminal::Mark(Mark::ConstraintNot)),
];

const CONSTRAINT_RELATIONS: [Row; 7] = [
    ("#=", Terminal::Relation("#=")),
    ("#!=", Terminal::Relation("#!=")),
    ("#<", Terminal::Relation("#<")),
    ("#=<", Terminal::Relation("#=<")),
    ("#<=", Terminal::Relation("#=<")),
    ("#>", Terminal::Relation("#>")),
    ("#>=", Terminal::Relation("#>=")),
];

const OPERATOR_WORDS: [Row; 7] = [
    ("in", Terminal::Relation("in")),
    ("notin", Terminal::Relation("notin")),
    ("not", Terminal::GoalSign("not")),
    ("once", Terminal::GoalSign("once")),
    ("div", Terminal::Joint(Line::Product, "/<")),
    ("mod", Terminal::Joint(Line::Product, "mod")),
    ("rem", Terminal::Joint(Line::Product, "rem")),
];

const BLOCK_WORDS: [Row; 8] = [
    ("if", Terminal::Mark(Mark::If)),
    ("then", Terminal::Mark(Mark::Then)),
    ("elseif", Terminal::Mark(Mark::ElseIf)),
    ("else", Terminal::Mark(Mark::Else)),
    ("end", Terminal::Mark(Mark::End)),
    ("foreach", Terminal::Mark(Mark::Foreach)),
    ("while", Terminal::Mark(Mark::While)),
    ("do", Terminal::Mark(Mark::Do)),
];

/// The terminal of a spelling in a table, where it is there.
fn found_in(rows: &[Row], spelling: &str) -> Option<Terminal<'static>>
    ensures { found_shown result ≡ t.found_in (rows_shown rows.now) spelling.now }
{
    for row in rows {
        if spelling == row.0 {
            return Some(row.1);
        }
    }
    None
}

/// Nearly all signs have one byte or two, and by these they are found sooner than in the tables.
fn sign_terminal(sign: &str) -> Terminal<'static>
    ensures { terminal_shown result ≡ t.sign_terminal sign.now }
{
    let bytes = sign.as_bytes();
    match bytes.len() {
        1 => short_terminal(sign, bytes[0]),
        2 => double_terminal(sign, bytes[0], bytes[1]),
        _ => any_terminal(sign),
    }
}

#[tactic(auto, unfolding(pi_syntax::specs::Terminals::sign_terminal))]
fn short_terminal(sign: &str, byte: u8) -> Terminal<'static>
    requires { sign.now ≡ byte ∷ [] }
    ensures { terminal_shown result ≡ t.sign_terminal sign.now }
{
    match byte {
        b'(' => Terminal::Mark(Mark::OpenParen),
        b')' => Terminal::Mark(Mark::CloseParen),
        b'[' => Terminal::Mark(Mark::OpenBracket),
        b']' => Terminal::Mark(Mark::CloseBracket),
        b'{' => Terminal::Mark(Mark::OpenBrace),
        b'}' => Terminal::Mark(Mark::CloseBrace),
        b',' => Terminal::Mark(Mark::Comma),
        b';' => Terminal::Mark(Mark::Semicolon),
        b'|' => Terminal::Mark(Mark::Bar),
        b':' => Terminal::Mark(Mark::Colon),
        b'.' => Terminal::Mark(Mark::Dot),
        b'$' => Terminal::Mark(Mark::Dollar),
        b'@' => Terminal::Mark(Mark::At),
        b'+' => Terminal::Mark(Mark::Plus),
        b'-' => Terminal::Mark(Mark::Minus),
        b'*' => Terminal::Joint(Line::Product, "*"),
        b'=' => Terminal::Relation("="),
        b'<' => Terminal::Relation("<"),
        b'>' => Terminal::Relation(">"),
        _ => any_terminal(sign),
    }
}

#[tactic(auto, unfolding(pi_syntax::specs::Terminals::sign_terminal))]
fn double_terminal(sign: &str, first: u8, second: u8) -> Terminal<'static>
    requires { sign.now ≡ first ∷ second ∷ [] }
    ensures { terminal_shown result ≡ t.sign_terminal sign.now }
{
    match (first, second) {
        (b'-', b'>') => Terminal::Mark(Mark::Arrow),
        (b'.', b'.') => Terminal::Mark(Mark::Dots),
        (b'*', b'*') => Terminal::Mark(Mark::Power),
        (b'+', b'+') => Terminal::Joint(Line::Sum, "++"),
        (b'/', b'/') => Terminal::Joint(Line::Product, "//"),
        (b'!', b'=') => Terminal::Relation("!="),
        (b'=', b'=') => Terminal::Relation("=="),
        (b'=', b'<') => Terminal::Relation("=<"),
        (b'<', b'=') => Terminal::Relation("=<"),
        (b'>', b'=') => Terminal::Relation(">="),
        (b':', b'=') => Terminal::Relation(":="),
        (b':', b':') => Terminal::Relation("::"),
        (b'#', b'=') => Terminal::Relation("#="),
        (b'#', b'<') => Terminal::Relation("#<"),
        (b'#', b'>') => Terminal::Relation("#>"),
        _ => any_terminal(sign),
    }
}

/// The terminal of a sign by the tables.
#[tactic(auto, unfolding(pi_syntax::specs::Terminals::sign_terminal))]
fn any_terminal(sign: &str) -> Terminal<'static>
    ensures { terminal_shown result ≡ t.sign_terminal sign.now }
{
    match found_in(&PUNCTUATION, sign) {
        Some(terminal) => terminal,
        None => operator_terminal(sign),
    }
}

fn operator_terminal(sign: &str) -> Terminal<'static>
    ensures { terminal_shown result ≡ unwrap_or (t.found_in t.arithmetic_rows sign.now)
        (unwrap_or (t.found_in t.relation_rows sign.now)
        (unwrap_or (t.found_in t.constraint_rows sign.now)
        (unwrap_or (t.found_in t.constraint_relation_rows sign.now) t.foreign))) }
{
    match found_in(&ARITHMETIC, sign) {
        Some(terminal) => terminal,
        None => relation_terminal(sign),
    }
}

fn relation_terminal(sign: &str) -> Terminal<'static>
    ensures { terminal_shown result ≡ unwrap_or (t.found_in t.relation_rows sign.now)
        (unwrap_or (t.found_in t.constraint_rows sign.now) (unwrap_or (t.found_in t.constraint_relation_rows sign.now) t.foreign)) }
{
    match found_in(&RELATIONS, sign) {
        Some(terminal) => terminal,
        None => constraint_terminal(sign),
    }
}

fn constraint_terminal(sign: &str) -> Terminal<'static>
    ensures { terminal_shown result ≡ unwrap_or (t.found_in t.constraint_rows sign.now)
        (unwrap_or (t.found_in t.constraint_relation_rows sign.now) t.foreign) }
{
    match found_in(&CONSTRAINTS, sign) {
        Some(terminal) => terminal,
        None => last_terminal(&CONSTRAINT_RELATIONS, sign),
    }
}

/// The terminal of a spelling in the last table where it may be.
fn last_terminal(rows: &[Row], spelling: &str) -> Terminal<'static>
    ensures { terminal_shown result ≡ unwrap_or (t.found_in (rows_shown rows.now) spelling.now) t.foreign }
{
    match found_in(rows, spelling) {
        Some(terminal) => terminal,
        None => Terminal::Mark(Mark::Foreign),
    }
}

#[tactic(auto, unfolding(pi_syntax::specs::Terminals::word_terminal))]
fn word_terminal(word: &str) -> Terminal<'static>
    ensures { terminal_shown result ≡ t.word_terminal word.now }
{
    match found_in(&OPERATOR_WORDS, word) {
        Some(terminal) => terminal,
        None => last_terminal(&BLOCK_WORDS, word),
    }
}

/// What a token is in the grammar.
pub(crate) fn terminal(token: TokenKind<'_>) -> Terminal<'_>
    requires { IsNatural (token_shown token) }
    ensures { terminal_shown result ≡ t.terminal (token_shown token.entry) }
{
    match token {
        TokenKind::Var(name) => Terminal::Variable(name),
        TokenKind::Atom(name) => Terminal::Atom(name),
        TokenKind::Word(word) => word_terminal(word),
        TokenKind::Int(value) => Terminal::Integer(Natural { value }),
        TokenKind::Str(text) => Terminal::Text(text),
        TokenKind::Sign(sign) => sign_terminal(sign),
        TokenKind::End => Terminal::Mark(Mark::Foreign),
    }
}
