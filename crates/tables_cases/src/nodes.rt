//! Words of terms: a term is written as its nodes in prefix order, each a word.

use crate::rows::named;

/// What a word of a term is. The last five are for terms that are put into a store.
#[derive(Clone, Copy)]
pub enum Node<'a> {
    /// `_7`
    Var(u64),
    Int(i128),
    /// A name, maybe in quotes.
    Atom(&'a str),
    /// `f/2`, before its arguments.
    Comp(&'a str, usize),
    /// `@0`: a term that was kept before.
    Kept(usize),
    /// `list:9`: a list of so many times an item, and what stands behind them.
    List(usize),
    /// `nest:9`: so many pairs around a term, each in the first place, with the same second one.
    Nest(usize),
    /// `twice:9`: so many pairs, each twice the one before.
    Twice(usize),
    /// `row:9`: an array of so many times an item.
    Row(usize),
}

/// A node that stands for many.
#[derive(Clone, Copy)]
enum Many {
    List,
    Nest,
    Twice,
    Row,
}

/// Each of these nodes with the word in front of its count.
const MANY: [(&str, Many); 4] = [
    ("list", Many::List),
    ("nest", Many::Nest),
    ("twice", Many::Twice),
    ("row", Many::Row),
];

/// The node that stands for many with a word.
fn many_of(word: &str) -> Option<Many> {
    named(&MANY, word)
}

/// What a word is.
pub fn node_of(word: &str) -> Node<'_> {
    if let Ok(n) = word.parse() {
        return Node::Int(n);
    }
    if let Some(n) = numbered(word, '_') {
        return Node::Var(n);
    }
    if let Some((name, count)) = word.rsplit_once('/')
        && !name.is_empty()
        && let Ok(count) = count.parse()
    {
        return Node::Comp(name, count);
    }
    repeated_of(word)
}

/// What a word is that is no variable, integer or compound.
fn repeated_of(word: &str) -> Node<'_> {
    if let Some(i) = numbered(word, '@')
        && let Ok(i) = usize::try_from(i)
    {
        return Node::Kept(i);
    }
    let Some((kind, count)) = word.split_once(':') else {
        return Node::Atom(word);
    };
    let (Some(kind), Ok(count)) = (many_of(kind), count.parse()) else {
        return Node::Atom(word);
    };
    match kind {
        Many::List => Node::List(count),
        Many::Nest => Node::Nest(count),
        Many::Twice => Node::Twice(count),
        Many::Row => Node::Row(count),
    }
}

/// The number behind a sign.
fn numbered(word: &str, sign: char) -> Option<u64> {
    word.strip_prefix(sign)?.parse().ok()
}

impl Node<'_> {
    /// How many terms stand behind the node that belong to it.
    fn below(self) -> usize {
        match self {
            Node::Comp(_, count) => count,
            Node::List(_) | Node::Nest(_) => 2,
            Node::Twice(_) | Node::Row(_) => 1,
            _ => 0,
        }
    }
}

/// How many of the words make the first term; None where they don't.
pub fn extent(words: &[String]) -> Option<usize> {
    let mut wanted = 1usize;
    for (i, word) in words.iter().enumerate() {
        wanted = wanted
            .saturating_sub(1)
            .saturating_add(node_of(word.as_str()).below());
        if wanted == 0 {
            return Some(i.saturating_add(1));
        }
    }
    None
}

/// What stands between the quotes of a word; None where it has none.
pub fn unquoted(word: &str) -> Option<&str> {
    word.strip_prefix('\'')?.strip_suffix('\'')
}

/// Whether a name is a word as it stands.
pub fn is_plain(name: &str) -> bool {
    for c in name.chars() {
        if c.is_whitespace() || c == '\'' || c == '\\' {
            return false;
        }
    }
    !name.is_empty() && matches!(node_of(name), Node::Atom(_))
}
