//! Parts of statements, as they are written one after another.

ghost use Rattle.std.specs.Prelude.{◌≡◌, ◌++◌, OnOk, string_bytes, map};
ghost use Rattle.cy_trees.specs.Show.{pieces_text, each_after, separated};
ghost use Rattle.cy_trees.specs.internal.Separators.{separator_pieces};

use std::alloc::AllocError;

/// What stands between two parts.
#[derive(Clone, Copy)]
pub(crate) enum Separator {
    Nothing,
    Bar,
    Comma,
    Space,
    And,
    Union,
    UnionAll,
}

/// A part of a statement, and how it is written.
pub(crate) trait Show {
    ghost use Rattle.std.specs.Prelude.{List};
    ghost use Rattle.cy_trees.specs.Show.{Piece};

    ghost pieces: { Self → List Piece };

    fn write(&self, text: &mut String) -> Result<(), AllocError>
        ensures { OnOk result (string_bytes text.new ≡ string_bytes text.old ++ pieces_text (pieces self.now)) };
}

impl Separator {
    fn as_str(self) -> &'static str
        ensures { result.now ≡ pieces_text (separator_pieces self) }
    {
        match self {
            Separator::Nothing => "",
            Separator::Bar => "|",
            Separator::Comma => ", ",
            Separator::Space => " ",
            Separator::And => " AND ",
            Separator::Union => " UNION ",
            Separator::UnionAll => " UNION ALL ",
        }
    }
}

/// Writes each part after a separator.
pub(crate) fn write_each<T: Show>(
    text: &mut String,
    separator: Separator,
    parts: &[T],
) -> Result<(), AllocError>
    ensures { OnOk result (string_bytes text.new ≡ string_bytes text.old ++ pieces_text (each_after (separator_pieces separator) (map T.pieces parts.now))) }
{
    for part in parts {
        text.push_str(separator.as_str())?;
        part.write(text)?;
    }
    Ok(())
}

/// Writes parts with a separator between each two.
pub(crate) fn write_separated<T: Show>(
    text: &mut String,
    separator: Separator,
    parts: &[T],
) -> Result<(), AllocError>
    ensures { OnOk result (string_bytes text.new ≡ string_bytes text.old ++ pieces_text (separated (separator_pieces separator) (map T.pieces parts.now))) }
{
    let Some((first, others)) = parts.split_first() else {
        return Ok(());
    };
    first.write(text)?;
    write_each(text, separator, others)
}
