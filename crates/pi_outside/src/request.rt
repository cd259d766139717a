//! What one line asks.
ghost use Rattle.std.specs.Prelude.{◌≡◌, ◌≤◌, length, codes};
ghost use Rattle.std.specs.Str.{bytes_eq};
ghost use Rattle.pi_outside.specs.Requests as spec;
ghost use Rattle.pi_outside.specs.Shown.{ShowsRequest};

/// The most bytes of a line, without its line feed.
pub const MAX_LINE: usize = 16_777_216;

/// So many bytes of a line tell what it asks.
pub const KEPT_LINE: usize = MAX_LINE + 1;

/// What a line asks.
#[derive(Clone, Copy)]
pub enum Request<'a> {
    /// Nothing: there is white space alone.
    Nothing,
    /// The next answer of the present query.
    Another,
    /// It has more bytes than a line may have.
    TooLong,
    /// This goal.
    Goal(&'a [u8]),
}

/// What a line asks, or the first bytes of one.
pub fn request_of(line: &[u8]) -> Request<'_>
    ensures { ShowsRequest result (spec.request_of line.now) }
{
    if line.len() > MAX_LINE {
        return Request::TooLong;
    }
    let text = trimmed(line);
    if text.is_empty() {
        return Request::Nothing;
    }
    if is_semicolon(text) {
        return Request::Another;
    }
    Request::Goal(text)
}

/// Whether the text is `;`.
fn is_semicolon(text: &[u8]) -> bool
    ensures { result ≡ bytes_eq text.now (codes ";") }
{
    text == b";".as_slice()
}

/// A line without the white space around it.
fn trimmed(line: &[u8]) -> &[u8]
    ensures { result.now ≡ spec.trimmed line.now }
{
    let before = white_len(line);
    let text = &line[before..];
    let behind = white_len_behind(text);
    &text[..text.len() - behind]
}

/// How many bytes at the front are white space.
fn white_len(text: &[u8]) -> usize
    ensures value { result ≡ spec.white_len text.now }
    ensures within { result ≤ length text.now }
{
    text.iter().take_while(|byte| is_white(**byte)).count()
}

/// How many bytes at the end are white space.
fn white_len_behind(text: &[u8]) -> usize
    ensures value { result ≡ spec.white_len_behind text.now }
    ensures within { result ≤ length text.now }
{
    text.iter()
        .rev()
        .take_while(|byte| is_white(**byte))
        .count()
}

/// Whether the byte is white space.
fn is_white(byte: u8) -> bool
    ensures { result ≡ spec.is_white byte }
{
    byte == b' ' || byte == b'\t' || byte == b'\n' || byte == b'\r'
}
