// Patterns for lines with many similar parts, and what replaces their marks in one round of a talk.
use crate::setting::Numbers;
use itoa::Buffer;
use std::alloc::{AllocError, Global};

// The replacements of the marks: `word` for `#` and `other` for `@`.
#[derive(Clone, Copy)]
pub(crate) struct Words<'a> {
    pub(crate) word: &'a str,
    pub(crate) other: &'a str,
}

impl Words<'_> {
    // Appends a text with the marks replaced.
    pub(crate) fn fill_into(&self, text: &str, list: &mut String) -> Result<(), AllocError> {
        for letter in text.chars() {
            match letter {
                '#' => list.push_str(self.word)?,
                '@' => list.push_str(self.other)?,
                letter => list.push(letter)?,
            }
        }
        Ok(())
    }

    // Returns a text with the marks replaced.
    pub(crate) fn fill(&self, alloc: Global, text: &str) -> Result<String, AllocError> {
        let mut list = String::new(alloc);
        self.fill_into(text, &mut list)?;
        Ok(list)
    }
}

// Appends a text once for each number. `#` is the number, and `@` the number as far from the end as this one is from
// the beginning.
fn push_repeated(text: &str, numbers: Numbers, list: &mut String) -> Result<(), AllocError> {
    let there = numbers.first..numbers.end;
    let back = (numbers.first..numbers.end).rev();
    for (number, other) in there.zip(back) {
        let mut digits = Buffer::new();
        let mut others = Buffer::new();
        let words = Words {
            word: digits.format(number),
            other: others.format(other),
        };
        words.fill_into(text, list)?;
    }
    Ok(())
}

// A text in which the part in braces, if any, is repeated for each number.
pub(crate) fn expand_braces(
    alloc: Global,
    text: &str,
    numbers: Numbers,
) -> Result<String, AllocError> {
    let Some((head, rest)) = text.split_once('{') else {
        return String::from_str(alloc, text);
    };
    let Some((part, tail)) = rest.split_once('}') else {
        return String::from_str(alloc, text);
    };
    let mut list = String::from_str(alloc, head)?;
    push_repeated(part, numbers, &mut list)?;
    list.push_str(tail)?;
    Ok(list)
}

/// One of the rounds in which a talk is run: the numbers and the word of its lines, and the encoding of new series, if
/// one is given.
#[derive(Clone, Copy)]
pub struct Round<'a> {
    pub numbers: Numbers,
    pub word: &'a str,
    pub encoding: Option<&'a str>,
}

impl Round<'_> {
    // A command. TS.CREATE gets the encoding as an option after the key.
    pub(crate) fn encoded(&self, alloc: Global, command: &str) -> Result<String, AllocError> {
        let (Some(encoding), Some(made)) = (self.encoding, command.strip_prefix("TS.CREATE "))
        else {
            return String::from_str(alloc, command);
        };
        match made.split_once(' ') {
            None => format!(in alloc; "TS.CREATE {made} ENCODING {encoding}"),
            Some((key, options)) => {
                format!(in alloc; "TS.CREATE {key} ENCODING {encoding} {options}")
            }
        }
    }
}
