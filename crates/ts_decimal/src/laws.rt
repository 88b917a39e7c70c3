//! What holds for decimal texts, independent of the code. The functions do nothing: each one states a law.
ghost use Rattle.ts_decimal.specs.Grammar.{DecimalIsSpelled};
ghost use Rattle.ts_decimal.specs.Laws.{ReadsBack, ValueIsNearest, OutOfRangeIsAbove, NotANumberIsNoDecimal};

/// Printing a value and parsing the text gives the value back.
pub fn printed_reads_back()
    ensures { ReadsBack }
{}

/// Parsing rounds to the nearest millionth, and a tie away from zero. `OutOfRange` means that this rounded number
/// exceeds the bound, and `NotANumber` that the text is no decimal.
pub fn value_is_nearest()
    ensures nearest { ValueIsNearest }
    ensures range { OutOfRangeIsAbove }
    ensures number { NotANumberIsNoDecimal }
{}

/// A text parses as a decimal exactly if the grammar accepts it, and the result is the decimal the grammar assigns:
/// sign, digits, fraction and exponent.
pub fn decimal_is_spelled()
    ensures { DecimalIsSpelled }
{}
