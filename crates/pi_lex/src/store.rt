//! The tokens as they are kept: four bytes each, most with a place in one buffer, and their lines beside them.

use crate::form::{Form, FormKind, Kind, NUMBERS_END, counted_kind};
use crate::item::Item;
use crate::quoted::push_unescaped;
use crate::spelling::{SEATS, push_all, seat_of, stands_at};
use crate::token_list::TokenKind;
use std::alloc::{AllocError, Global};

/// From so many bytes on a spelling is a long one, since its count is kept as a character of ASCII.
const LONG_FROM: usize = 128;

/// Bytes of the buffer.
#[derive(Clone, Copy)]
pub(crate) struct Span {
    from: u32,
    len: u32,
}

/// A token whose spelling is too long to be counted, or whose count would stand at a place past the numbers of forms.
#[derive(Clone, Copy)]
pub(crate) struct Long {
    kind: Kind,
    span: Span,
}

/// The tokens' forms, and what they refer to. `feeds` has for each line feed that is passed how many tokens stand
/// before it, so no token holds its line. `seats` has places where counts may stand; each is only a guess, of which
/// nothing is known until the buffer is looked at.
pub(crate) struct Store {
    buffer: String,
    longs: Vec<Long>,
    numbers: Vec<i128>,
    forms: Vec<Form>,
    feeds: Vec<u32>,
    seats: [u32; SEATS],
}

// By hand, so that letting one go is a call and not its parts at each way out.
impl Drop for Store {
    fn drop(self) {
        let Store {
            buffer: _,
            longs: _,
            numbers: _,
            forms: _,
            feeds: _,
            seats: _,
        } = self;
    }
}

impl Store {
    ghost use Rattle.std.specs.Prelude.{◌≡◌, [], ◌++◌, ◌+◌, ◌-◌, ◌^◌, ◌<◌, false, length, encode_utf8_all, slice_get, Some, string_bytes, string_len, vec_len, OnOk, IfOk};
    ghost use Rattle.pi_lex.specs.Spans.{span, spanned, IsSpan, spelled_at, IsCounted};
    ghost use Rattle.pi_lex.specs.Kinds.{token_shown, kinds, lines};
    ghost use Rattle.pi_lex.specs.Items.{seen, FitsIn, item_len, tokens_from};
    ghost use Rattle.pi_lex.specs.Store.{listed, said, token_of, IsForm, IsSound, IsKept, IsTaken, GrowsBy, HasRoom, StandsBefore};
    ghost use Rattle.pi_syntax.specs.Tokens.{Int, unescaped, most_bytes};

    /// A store of no tokens.
    pub(crate) fn new(alloc: Global) -> Self
        ensures listed { listed result ≡ [] }
        ensures sound { IsSound result }
        ensures room { HasRoom result most_bytes }
        ensures before { StandsBefore result 1 }
    {
        Store {
            buffer: String::new(alloc),
            longs: Vec::new(alloc),
            numbers: Vec::new(alloc),
            forms: Vec::new(alloc),
            feeds: Vec::new(alloc),
            seats: [0; SEATS],
        }
    }

    /// Adds the token that stands at the front of the text, if one does. No token may be on a later line.
    pub(crate) fn push(&mut self, item: Item, text: &[char], line: u32) -> Result<(), AllocError>
        requires sound { IsSound self.old }
        requires fits { FitsIn text.now item }
        requires room { HasRoom self.old (length text.now) }
        requires before { StandsBefore self.old line }
        ensures listed { OnOk result (listed self.new ≡ listed self.old ++ tokens_from (seen text.now item) line) }
        ensures sound { OnOk result (IsSound self.new) }
        ensures grows { OnOk result (GrowsBy self.old self.new (item_len (seen text.now item))) }
        ensures before { OnOk result (StandsBefore self.new line) }
    {
        if let Some(form) = self.keep(item, text)? {
            let here = self.forms.len() as u32;
            self.feeds.resize(line as usize - 1, here)?;
            self.forms.push(form)?;
        }
        Ok(())
    }

    /// How many tokens there are.
    pub(crate) fn len(&self) -> usize
        ensures { result ≡ length (listed self.now) }
    {
        self.forms.len()
    }

    /// The line of a token: one more than the line feeds before it.
    pub(crate) fn line(&self, index: usize) -> u64
        requires sound { IsSound self.now }
        requires within { index < length (listed self.now) }
        ensures { slice_get (lines (listed self.now)) index ≡ Some result }
    {
        self.feeds.partition_point(|feed| *feed as usize <= index) as u64 + 1
    }

    /// What a token says.
    pub(crate) fn kind(&self, index: usize) -> TokenKind<'_>
        requires sound { IsSound self.now }
        requires within { index < length (listed self.now) }
        ensures { slice_get (kinds (listed self.now)) index ≡ Some (token_shown result) }
    {
        self.show(self.forms[index])
    }

    fn show(&self, form: Form) -> TokenKind<'_>
        requires { IsForm self.now form }
        ensures { token_shown result ≡ token_of self.now form }
    {
        let number = form.number() as usize;
        match form.kind {
            FormKind::Variable => TokenKind::Var(self.spelled(number)),
            FormKind::Atom => TokenKind::Atom(self.spelled(number)),
            FormKind::Word => TokenKind::Word(self.spelled(number)),
            FormKind::Text => TokenKind::Str(self.spelled(number)),
            FormKind::Sign => TokenKind::Sign(self.spelled(number)),
            FormKind::Long => self.show_long(self.longs[number]),
            FormKind::Small => TokenKind::Int(i128::from(form.number())),
            FormKind::Large => TokenKind::Int(self.numbers[number]),
            FormKind::EndPoint => TokenKind::End,
        }
    }

    fn show_long(&self, long: Long) -> TokenKind<'_>
        requires { IsSpan (string_bytes self.now.buffer) long.span }
        ensures { token_shown result ≡ said long.kind (spanned (string_bytes self.now.buffer) long.span) }
    {
        let bytes = self.bytes(long.span);
        match long.kind {
            Kind::Variable => TokenKind::Var(bytes),
            Kind::Atom => TokenKind::Atom(bytes),
            Kind::Word => TokenKind::Word(bytes),
            Kind::Text => TokenKind::Str(bytes),
            Kind::Sign => TokenKind::Sign(bytes),
        }
    }

    /// The spelling in front of its count.
    fn spelled(&self, place: usize) -> &str
        requires { IsCounted (string_bytes self.now.buffer) place }
        ensures { result.now ≡ spelled_at (string_bytes self.now.buffer) place }
    {
        let buffer = self.buffer.as_str();
        let len = usize::from(buffer.as_bytes()[place]);
        &buffer[place - len..place]
    }

    fn bytes(&self, span: Span) -> &str
        requires { IsSpan (string_bytes self.now.buffer) span }
        ensures { result.now ≡ spanned (string_bytes self.now.buffer) span }
    {
        let from = span.from as usize;
        &self.buffer.as_str()[from..from + span.len as usize]
    }

    /// Keeps what the token at the front of the text says.
    fn keep(&mut self, item: Item, text: &[char]) -> Result<Option<Form>, AllocError>
        requires fits { FitsIn text.now item }
        requires room { HasRoom self.old (length text.now) }
        ensures { IfOk result (λ form. IsTaken self.old self.new form (seen text.now item)) }
    {
        match item {
            Item::Variable(len) => Ok(Some(self.spell(Kind::Variable, &text[..len])?)),
            Item::Atom(len) => Ok(Some(self.spell(Kind::Atom, &text[..len])?)),
            Item::Word(len) => Ok(Some(self.spell(Kind::Word, &text[..len])?)),
            Item::Sign(len) => Ok(Some(self.spell(Kind::Sign, &text[..len])?)),
            Item::QuotedAtom(place) => Ok(Some(self.unescape(Kind::Atom, &text[1..place])?)),
            Item::Text(place) => Ok(Some(self.unescape(Kind::Text, &text[1..place])?)),
            Item::Integer(value, _) => Ok(Some(self.number(value)?)),
            Item::EndPoint => Ok(Some(Form::new(FormKind::EndPoint, 0))),
            Item::Blank(_) | Item::Wide | Item::Bad => Ok(None),
        }
    }

    /// Keeps the characters as they are, where they don't stand at their seat already.
    fn spell(&mut self, kind: Kind, spelling: &[char]) -> Result<Form, AllocError>
        requires some { 0 < length spelling.now }
        requires room { HasRoom self.old (length spelling.now) }
        ensures { IfOk result (λ form. IsKept self.old self.new form (said kind (encode_utf8_all spelling.now)) (length spelling.now)) }
    {
        let seat = seat_of(spelling);
        let guess = self.seats[seat] as usize;
        if guess < NUMBERS_END && stands_at(self.buffer.as_str(), guess, spelling) {
            return Ok(Form::new(counted_kind(kind), guess));
        }
        let from = self.buffer.len();
        push_all(&mut self.buffer, spelling)?;
        self.seats[seat] = self.buffer.len() as u32;
        self.refer(kind, from)
    }

    /// Keeps what the characters between two quotes stand for.
    fn unescape(&mut self, kind: Kind, inside: &[char]) -> Result<Form, AllocError>
        requires { HasRoom self.old (length inside.now + 1) }
        ensures { IfOk result (λ form. IsKept self.old self.new form (said kind (encode_utf8_all (unescaped false inside.now)))
            (length inside.now)) }
    {
        let from = self.buffer.len();
        push_unescaped(&mut self.buffer, inside)?;
        self.refer(kind, from)
    }

    /// The form of what the buffer holds from a place on. A count is pushed behind it, or it is a long one.
    fn refer(&mut self, kind: Kind, from: usize) -> Result<Form, AllocError>
        requires span { IsSpan (string_bytes self.old.buffer) (span from (string_len self.old.buffer - from)) }
        requires buffer { string_len self.old.buffer < 2 ^ 32 }
        requires longs { vec_len self.old.longs < 2 ^ 24 }
        ensures { IfOk result (λ form. IsKept self.old self.new form
            (said kind (spanned (string_bytes self.old.buffer) (span from (string_len self.old.buffer - from)))) 0) }
    {
        let place = self.buffer.len();
        let len = place - from;
        if len < LONG_FROM && place < NUMBERS_END {
            self.buffer.push(char::from(len as u8))?;
            return Ok(Form::new(counted_kind(kind), place));
        }
        let number = self.longs.len();
        let span = Span {
            from: from as u32,
            len: len as u32,
        };
        self.longs.push(Long { kind, span })?;
        Ok(Form::new(FormKind::Long, number))
    }

    fn number(&mut self, value: i128) -> Result<Form, AllocError>
        requires { HasRoom self.old 1 }
        ensures { IfOk result (λ form. IsKept self.old self.new form (Int value) 0) }
    {
        if let Ok(small) = u32::try_from(value) {
            let small = small as usize;
            if small < NUMBERS_END {
                return Ok(Form::new(FormKind::Small, small));
            }
        }
        let place = self.numbers.len();
        self.numbers.push(value)?;
        Ok(Form::new(FormKind::Large, place))
    }
}
