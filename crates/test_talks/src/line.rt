// A line of a stream: what is sent, and what is expected.
use crate::patterns::{Round, Words, expand_braces};
use crate::setting::Numbers;
use crate::texts::Exchange;
use itoa::Buffer;
use std::alloc::{AllocError, Global};

// How often a command is sent, or that the line is bytes.
#[derive(Clone, Copy)]
enum Form {
    Once,
    // Once for each number.
    Each,
    // Once for each group of this many numbers.
    EachGroup(usize),
    // Bytes as they are.
    Bytes,
}

impl Form {
    // The form of a line that begins with `each `, from the text after it: a number may come first. Returns the form,
    // and the text after the number.
    fn of_each(text: &str) -> (Form, &str) {
        if let Some((count, rest)) = text.split_once(' ') {
            if let Ok(count) = count.parse::<usize>() {
                return (Form::EachGroup(count.max(1)), rest);
            }
        }
        (Form::Each, text)
    }
}

#[derive(Drop)]
pub(crate) struct Line {
    command: String,
    reply: String,
    form: Form,
}

impl Line {
    // Parses a line. After `each `, a command and its reply are repeated for each number, or for each group of numbers.
    // After `sends ` and `gets ` come bytes. Returns `None` for anything else.
    pub(crate) fn read(alloc: Global, text: &str) -> Result<Option<Line>, AllocError> {
        if let Some(sent) = text.strip_prefix("sends ") {
            return Ok(Some(Line::of(alloc, sent, "", Form::Bytes)?));
        }
        if let Some(due) = text.strip_prefix("gets ") {
            return Ok(Some(Line::of(alloc, "", due, Form::Bytes)?));
        }
        let (form, text) = match text.strip_prefix("each ") {
            None => (Form::Once, text),
            Some(rest) => Form::of_each(rest),
        };
        let Some((command, reply)) = text.split_once(" -> ") else {
            return Ok(None);
        };
        Ok(Some(Line::of(alloc, command, reply, form)?))
    }

    fn of(alloc: Global, command: &str, reply: &str, form: Form) -> Result<Line, AllocError> {
        Ok(Line {
            command: String::from_str(alloc, command)?,
            reply: String::from_str(alloc, reply)?,
            form,
        })
    }

    // Adds what the line sends and expects. `^` in a command is the word, and in a reply the word as a bulk string.
    pub(crate) fn add_to(
        &self,
        alloc: Global,
        round: Round,
        exchange: &mut Exchange,
    ) -> Result<(), AllocError> {
        match self.form {
            Form::Once => {}
            Form::Each => return self.add_each(alloc, round, exchange),
            Form::EachGroup(count) => return self.add_groups(alloc, round, count, exchange),
            Form::Bytes => return exchange.push_bytes(&self.command, &self.reply),
        }
        let command = expand_braces(alloc, &self.command, round.numbers)?;
        let reply = expand_braces(alloc, &self.reply, round.numbers)?;
        let command = with_word(alloc, &command, round.word)?;
        let reply = with_word(alloc, &reply, &bulk(alloc, round.word)?)?;
        exchange.push(&round.encoded(alloc, &command)?, &reply)
    }

    // Adds the command and the reply once for each number. `#` is the number, and `@` the number as far from the end as
    // this one is from the beginning.
    fn add_each(
        &self,
        alloc: Global,
        round: Round,
        exchange: &mut Exchange,
    ) -> Result<(), AllocError> {
        let numbers = round.numbers;
        let there = numbers.first..numbers.end;
        let back = (numbers.first..numbers.end).rev();
        for (number, other) in there.zip(back) {
            let mut digits = Buffer::new();
            let mut others = Buffer::new();
            let words = Words {
                word: digits.format(number),
                other: others.format(other),
            };
            let command = words.fill(alloc, &self.command)?;
            let reply = words.fill(alloc, &self.reply)?;
            exchange.push(&round.encoded(alloc, &command)?, &reply)?;
        }
        Ok(())
    }

    // Adds the command and the reply once for each multiple of this count among the numbers, with the part in braces
    // repeated for the numbers from it up to the next multiple.
    fn add_groups(
        &self,
        alloc: Global,
        round: Round,
        count: usize,
        exchange: &mut Exchange,
    ) -> Result<(), AllocError> {
        for first in round.numbers.first..round.numbers.end {
            if first % count.max(1) == 0 {
                let end = first.saturating_add(count);
                let numbers = Numbers { first, end };
                let command = expand_braces(alloc, &self.command, numbers)?;
                let reply = expand_braces(alloc, &self.reply, numbers)?;
                exchange.push(&round.encoded(alloc, &command)?, &reply)?;
            }
        }
        Ok(())
    }
}

// A text with each `^` replaced by a word.
fn with_word(alloc: Global, text: &str, word: &str) -> Result<String, AllocError> {
    let mut list = String::new(alloc);
    for letter in text.chars() {
        match letter {
            '^' => list.push_str(word)?,
            letter => list.push(letter)?,
        }
    }
    Ok(list)
}

// The word as a bulk string reply.
fn bulk(alloc: Global, word: &str) -> Result<String, AllocError> {
    let length = word.len();
    format!(in alloc; "${length} | {word}")
}
