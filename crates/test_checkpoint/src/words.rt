// Words and numbers as text.
use std::alloc::{AllocError, Global};
use std::{io, str};
use ts_resp::Word;

pub(crate) fn word(alloc: Global, text: &str) -> Result<Word, AllocError> {
    Word::from_slice(alloc, text.as_bytes())
}

// The words in a text, separated by single spaces. An empty text has none.
pub(crate) fn words_of(alloc: Global, text: &str) -> Result<Vec<Word>, AllocError> {
    let mut words = Vec::new(alloc);
    if !text.is_empty() {
        for part in text.split(' ') {
            words.push(word(alloc, part)?)?;
        }
    }
    Ok(words)
}

// An answer of these words, separated by spaces.
pub(crate) fn joined(alloc: Global, words: &[Word]) -> io::Result<Option<String>> {
    let mut list = String::new(alloc);
    for word in words {
        if !list.is_empty() {
            list.push(' ')?;
        }
        list.push_str(text(word))?;
    }
    Ok(Some(list))
}

// A word as text. All words come from lines of text.
pub(crate) fn text(word: &Word) -> &str {
    str::from_utf8(word.bytes()).unwrap_or("no text")
}

// A number, or 0 if the text is none.
pub(crate) fn small(text: &str) -> u32 {
    text.parse::<u32>().unwrap_or(0)
}
