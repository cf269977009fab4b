//! Names and texts in quotes.

ghost use Rattle.std.specs.Prelude.{◌≡◌, ◌++◌, ◌==◌, ◌||◌, OnOk, string_bytes};
ghost use Rattle.cy_trees.specs.Show.{named, spelt, piece_text};

use std::alloc::AllocError;

/// Writes a name in backticks, each backtick in it doubled.
pub(crate) fn write_name(text: &mut String, name: &str) -> Result<(), AllocError>
    ensures { OnOk result (string_bytes text.new ≡ string_bytes text.old ++ piece_text (named name.now)) }
{
    text.push('`')?;
    for character in name.chars() {
        if character == '`' {
            text.push('`')?;
        }
        text.push(character)?;
    }
    text.push('`')
}

/// A backslash stands before the character.
fn is_escaped(character: char) -> bool
    ensures { result ≡ ((character == 92) || (character == 39)) }
{
    character == '\\' || character == '\''
}

/// Writes a text in single quotes, with a backslash before each backslash and each single quote.
pub(crate) fn write_quoted(text: &mut String, quoted: &str) -> Result<(), AllocError>
    ensures { OnOk result (string_bytes text.new ≡ string_bytes text.old ++ piece_text (spelt quoted.now)) }
{
    text.push('\'')?;
    for character in quoted.chars() {
        if is_escaped(character) {
            text.push('\\')?;
        }
        text.push(character)?;
    }
    text.push('\'')
}
