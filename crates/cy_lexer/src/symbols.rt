//! The symbols.

ghost use Rattle.std.specs.Prelude.{◌≡◌};
ghost use Rattle.cy_lexer.specs.Symbols.{pair_symbol, single_symbol};

/// A sign or a pair of signs that is a token of its own (openCypher 9, grammar), of this profile.
#[derive(Clone, Copy, Debug, PartialEq, Eq)]
pub enum Symbol {
    /// `..`
    DotDot,
    /// `<>`
    NotEqual,
    /// `<=`
    LessOrEqual,
    /// `>=`
    GreaterOrEqual,
    /// `(`
    LeftParenthesis,
    /// `)`
    RightParenthesis,
    /// `[`
    LeftBracket,
    /// `]`
    RightBracket,
    /// `{`
    LeftBrace,
    /// `}`
    RightBrace,
    /// `,`
    Comma,
    /// `:`
    Colon,
    /// `;`
    Semicolon,
    /// `.`
    Dot,
    /// `|`
    Bar,
    /// `+`
    Plus,
    /// `-`
    Minus,
    /// `*`
    Star,
    /// `/`
    Slash,
    /// `%`
    Percent,
    /// `=`
    Equal,
    /// `<`
    Less,
    /// `>`
    Greater,
}

/// The symbol that two characters make.
pub(crate) fn pair_symbol(first: char, second: char) -> Option<Symbol>
    ensures { result ≡ pair_symbol first second }
{
    match (first, second) {
        ('.', '.') => Some(Symbol::DotDot),
        ('<', '>') => Some(Symbol::NotEqual),
        ('<', '=') => Some(Symbol::LessOrEqual),
        ('>', '=') => Some(Symbol::GreaterOrEqual),
        _ => None,
    }
}

/// The symbol that one character makes.
pub(crate) fn single_symbol(first: char) -> Option<Symbol>
    ensures { result ≡ single_symbol first }
{
    match first {
        '(' => Some(Symbol::LeftParenthesis),
        ')' => Some(Symbol::RightParenthesis),
        '[' => Some(Symbol::LeftBracket),
        ']' => Some(Symbol::RightBracket),
        '{' => Some(Symbol::LeftBrace),
        '}' => Some(Symbol::RightBrace),
        ',' => Some(Symbol::Comma),
        ':' => Some(Symbol::Colon),
        ';' => Some(Symbol::Semicolon),
        '.' => Some(Symbol::Dot),
        '|' => Some(Symbol::Bar),
        '+' => Some(Symbol::Plus),
        '-' => Some(Symbol::Minus),
        '*' => Some(Symbol::Star),
        '/' => Some(Symbol::Slash),
        '%' => Some(Symbol::Percent),
        '=' => Some(Symbol::Equal),
        '<' => Some(Symbol::Less),
        '>' => Some(Symbol::Greater),
        _ => None,
    }
}
