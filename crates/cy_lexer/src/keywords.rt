//! The keywords.

ghost use Rattle.std.specs.Prelude.{◌≡◌, filter, find};
ghost use Rattle.cy_lexer.specs.Keywords.{spelling, keywords, same_word, keyword_of};
ghost use Rattle.cy_lexer.specs.internal.Reading.{begins_keyword};

/// A word that the grammar reserves (openCypher 9, reserved words), of this profile.
#[derive(Clone, Copy, Debug, PartialEq, Eq)]
pub enum Keyword {
    /// `ALL`
    All,
    /// `AND`
    And,
    /// `AS`
    As,
    /// `ASC`
    Asc,
    /// `ASCENDING`
    Ascending,
    /// `BY`
    By,
    /// `CASE`
    Case,
    /// `CONTAINS`
    Contains,
    /// `CREATE`
    Create,
    /// `DELETE`
    Delete,
    /// `DESC`
    Desc,
    /// `DESCENDING`
    Descending,
    /// `DETACH`
    Detach,
    /// `DISTINCT`
    Distinct,
    /// `ELSE`
    Else,
    /// `END`
    End,
    /// `ENDS`
    Ends,
    /// `FALSE`
    False,
    /// `IN`
    In,
    /// `IS`
    Is,
    /// `LIMIT`
    Limit,
    /// `MATCH`
    Match,
    /// `NOT`
    Not,
    /// `NULL`
    Null,
    /// `OPTIONAL`
    Optional,
    /// `OR`
    Or,
    /// `ORDER`
    Order,
    /// `REMOVE`
    Remove,
    /// `RETURN`
    Return,
    /// `SET`
    Set,
    /// `SKIP`
    Skip,
    /// `STARTS`
    Starts,
    /// `THEN`
    Then,
    /// `TRUE`
    True,
    /// `UNION`
    Union,
    /// `UNWIND`
    Unwind,
    /// `WHEN`
    When,
    /// `WHERE`
    Where,
    /// `WITH`
    With,
    /// `XOR`
    Xor,
}

impl Keyword {
    /// The keyword in capitals.
    pub fn spelling(self) -> &'static str
        ensures { result.now ≡ spelling self }
    {
        match self {
            Keyword::All => "ALL",
            Keyword::And => "AND",
            Keyword::As => "AS",
            Keyword::Asc => "ASC",
            Keyword::Ascending => "ASCENDING",
            Keyword::By => "BY",
            Keyword::Case => "CASE",
            Keyword::Contains => "CONTAINS",
            Keyword::Create => "CREATE",
            Keyword::Delete => "DELETE",
            Keyword::Desc => "DESC",
            Keyword::Descending => "DESCENDING",
            Keyword::Detach => "DETACH",
            Keyword::Distinct => "DISTINCT",
            Keyword::Else => "ELSE",
            Keyword::End => "END",
            Keyword::Ends => "ENDS",
            Keyword::False => "FALSE",
            Keyword::In => "IN",
            Keyword::Is => "IS",
            Keyword::Limit => "LIMIT",
            Keyword::Match => "MATCH",
            Keyword::Not => "NOT",
            Keyword::Null => "NULL",
            Keyword::Optional => "OPTIONAL",
            Keyword::Or => "OR",
            Keyword::Order => "ORDER",
            Keyword::Remove => "REMOVE",
            Keyword::Return => "RETURN",
            Keyword::Set => "SET",
            Keyword::Skip => "SKIP",
            Keyword::Starts => "STARTS",
            Keyword::Then => "THEN",
            Keyword::True => "TRUE",
            Keyword::Union => "UNION",
            Keyword::Unwind => "UNWIND",
            Keyword::When => "WHEN",
            Keyword::Where => "WHERE",
            Keyword::With => "WITH",
            Keyword::Xor => "XOR",
        }
    }

    /// Whether the word is the keyword, whatever the case of its ASCII letters.
    fn is_spelled(self, word: &str) -> bool
        ensures { result ≡ same_word (spelling self) word.now }
    {
        is_same_word(self.spelling(), word)
    }
}

/// Whether two words are the same but for the case of their ASCII letters, as a keyword is in whatever case it is written
/// (openCypher 9, reserved words).
pub fn is_same_word(one: &str, other: &str) -> bool
    ensures { result ≡ same_word one.now other.now }
{
    one.eq_ignore_ascii_case(other)
}

/// The keywords that begin with the letter, whatever its case, in the order of the alphabet.
fn keywords_with(letter: u8) -> &'static [Keyword]
    ensures { result.now ≡ filter (begins_keyword letter) keywords }
{
    match letter.to_ascii_uppercase() {
        b'A' => &[
            Keyword::All,
            Keyword::And,
            Keyword::As,
            Keyword::Asc,
            Keyword::Ascending,
        ],
        b'B' => &[Keyword::By],
        b'C' => &[Keyword::Case, Keyword::Contains, Keyword::Create],
        b'D' => &[
            Keyword::Delete,
            Keyword::Desc,
            Keyword::Descending,
            Keyword::Detach,
            Keyword::Distinct,
        ],
        b'E' => &[Keyword::Else, Keyword::End, Keyword::Ends],
        b'F' => &[Keyword::False],
        b'I' => &[Keyword::In, Keyword::Is],
        b'L' => &[Keyword::Limit],
        b'M' => &[Keyword::Match],
        b'N' => &[Keyword::Not, Keyword::Null],
        b'O' => &[Keyword::Optional, Keyword::Or, Keyword::Order],
        b'R' => &[Keyword::Remove, Keyword::Return],
        b'S' => &[Keyword::Set, Keyword::Skip, Keyword::Starts],
        b'T' => &[Keyword::Then, Keyword::True],
        b'U' => &[Keyword::Union, Keyword::Unwind],
        b'W' => &[Keyword::When, Keyword::Where, Keyword::With],
        b'X' => &[Keyword::Xor],
        _ => &[],
    }
}

/// The first of the keywords that the word is, whatever the case of its ASCII letters.
fn first_spelled(keywords: &[Keyword], word: &str) -> Option<Keyword>
    ensures { result ≡ find (λ keyword. same_word (spelling keyword) word.now) keywords.now }
{
    keywords
        .iter()
        .copied()
        .find(|keyword| keyword.is_spelled(word))
}

/// The keyword that the word is, whatever the case of its ASCII letters.
#[tactic(auto, using(crate::proofs::KeywordsLemmas::keyword_of_short))]
pub(crate) fn keyword_of(word: &str) -> Option<Keyword>
    ensures { result ≡ keyword_of word.now }
{
    // No keyword has one letter alone.
    if word.len() < 2 {
        return None;
    }
    let letter = word.as_bytes().first()?;
    first_spelled(keywords_with(*letter), word)
}
