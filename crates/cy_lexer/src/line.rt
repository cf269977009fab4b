//! The text of a line of bytes.

ghost use Rattle.cy_lexer.specs.Line.{IsTextOf};

use crate::faults::LexFault;

/// The length of the longest line, in bytes without its line end (own: this profile's choice, which stands
/// in no standard).
pub const LONGEST_LINE: usize = 65536;

/// The text that the bytes are. Fails with `LineTooLong` above 65,536 bytes, else with `NotUtf8` where they aren't
/// UTF-8. Takes no memory.
pub fn text_of(bytes: &[u8]) -> Result<&str, LexFault>
    ensures { IsTextOf bytes.now result }
{
    if bytes.len() > LONGEST_LINE {
        return Err(LexFault::LineTooLong);
    }
    str::from_utf8(bytes).map_err(|error| LexFault::NotUtf8(error.valid_up_to()))
}
