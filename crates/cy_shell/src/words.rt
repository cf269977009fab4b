//! The words of faults.

ghost use Rattle.std.specs.Prelude.{◌≡◌};
ghost use Rattle.cy_shell.specs.Words.{word_of};

/// The word of a fault's number, or an empty text where no fault has the number.
pub(crate) fn word(code: u16) -> &'static str
    ensures { result.now ≡ word_of code }
{
    match code {
        10 => "BadCharacter",
        11 => "UnclosedText",
        12 => "BadEscape",
        13 => "UnclosedComment",
        14 => "UnclosedName",
        15 => "BadNumber",
        16 => "NumberTooLarge",
        17 => "LineTooLong",
        18 => "NotUtf8",
        20 => "Unexpected",
        21 => "TooDeep",
        22 => "ClauseOrder",
        24 => "BadRange",
        30 => "UnknownVariable",
        31 => "AlreadyBound",
        32 => "WrongKind",
        33 => "MissingAlias",
        34 => "DuplicateColumn",
        35 => "AggregateHere",
        36 => "UnknownFunction",
        37 => "WrongArguments",
        38 => "RepeatedRelationship",
        39 => "BadCreate",
        40 => "NotBoolean",
        41 => "WrongType",
        42 => "Overflow",
        43 => "DivisionByZero",
        44 => "NestedList",
        50 => "StillConnected",
        51 => "NullEndpoint",
        52 => "NotStorable",
        53 => "Full",
        60 => "ViewNameTaken",
        61 => "NoSuchView",
        62 => "NotAReading",
        63 => "MayFail",
        64 => "Unbounded",
        65 => "AggregateInView",
        66 => "OrderInView",
        67 => "PlanTooLarge",
        68 => "TooManyViews",
        69 => "TooManyRows",
        70 => "UnknownCommand",
        71 => "IndexThere",
        72 => "BadArgument",
        73 => "FutureTick",
        90 => "NoMemory",
        91 => "ReplyLost",
        _ => "",
    }
}
