//! The characters of a line, from the left.

ghost use Rattle.std.specs.Prelude.{◌≡◌, ◌<◌, ◌≤◌, ◌||◌, [], ◌∷◌, length, drop, take, MatchOption, IfSome, chars};
ghost use Rattle.std.specs.List.{prefix_len};
ghost use Rattle.cy_lexer.specs.Characters.{begins_with, starts_name, goes_on};

/// What a run of characters belongs to.
#[derive(Clone, Copy)]
pub(crate) enum Run {
    Name,
    Digits,
    Line,
    /// What stands for itself inside of these quotes.
    Quoted(char),
}

impl Run {
    /// Whether the run goes on with the character.
    pub(crate) fn goes_on(self, c: char) -> bool
        ensures { result ≡ goes_on self c }
    {
        match self {
            Run::Name if c.is_ascii() => c.is_ascii_alphanumeric() || c == '_',
            Run::Name => unicode_ident::is_xid_continue(c),
            Run::Digits => c.is_ascii_digit(),
            Run::Line => c != '\n',
            Run::Quoted(quote) => c != quote && c != '\\',
        }
    }
}

/// Whether a name may begin with the character.
pub(crate) fn starts_name(c: char) -> bool
    ensures { result ≡ starts_name c }
{
    if c.is_ascii() {
        c.is_ascii_alphabetic() || c == '_'
    } else {
        unicode_ident::is_xid_start(c)
    }
}

/// The first character of a text, and what follows it.
pub(crate) fn split_first(text: &str) -> Option<(char, &str)>
    ensures cases { MatchOption result (chars text.now ≡ []) (λ p. chars text.now ≡ p.0 ∷ chars p.1.now) }
    ensures shorter { IfSome result (λ p. length p.1.now < length text.now) }
{
    let mut characters = text.chars();
    let first = characters.next()?;
    Some((first, characters.as_str()))
}

/// Whether the text begins with the character.
pub(crate) fn begins_with(text: &str, c: char) -> bool
    ensures { result ≡ begins_with c (chars text.now) }
{
    match split_first(text) {
        Some((first, _)) => first == c,
        None => false,
    }
}

/// What follows the characters at the front that go on with the run, from a character on that may not be ASCII.
fn after_characters(run: Run, text: &str) -> &str
    ensures value { chars result.now ≡ drop (prefix_len (goes_on run) (chars text.now)) (chars text.now) }
    ensures shorter { length result.now ≤ length text.now }
{
    let mut rest = text;
    while let Some((first, after)) = split_first(rest) {
        if !run.goes_on(first) {
            break;
        }
        rest = after;
    }
    rest
}

/// What follows the characters at the front that go on with the run.
pub(crate) fn after_run(run: Run, text: &str) -> &str
    ensures value { chars result.now ≡ drop (prefix_len (goes_on run) (chars text.now)) (chars text.now) }
    ensures shorter { length result.now ≤ length text.now }
{
    let bytes = text.as_bytes();
    let mut at = 0;
    while at < bytes.len() && bytes[at].is_ascii() {
        if !run.goes_on(bytes[at] as char) {
            return text.split_at(at).1;
        }
        at += 1;
    }
    after_characters(run, text.split_at(at).1)
}
