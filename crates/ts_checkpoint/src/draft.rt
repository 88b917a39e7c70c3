// The words of a record under construction.
ghost use Rattle.std.specs.Prelude.{◌≡◌, ◌∷◌, [], IfOk, OnOk};
ghost use Rattle.std.specs.Fmt.{decimal, signed_decimal};
ghost use Rattle.ts_spec.specs.Value.{shown_value};
ghost use Rattle.ts_restore.specs.CheckNumber.{check_number};
ghost use Rattle.ts_checkpoint.specs.Numbers.{time_word};
ghost use Rattle.ts_checkpoint.specs.PartWords.{checked};
ghost use Rattle.ts_checkpoint.specs.Records.{Appends};

use itoa::Buffer;
use std::alloc::{AllocError, Global};
use std::marker::Model;
use ts_decimal::print;
use ts_resp::Word;
use ts_restore::CheckNumber;
use ts_sample::Units;

// The words of a record, except its check number.
#[derive(Drop)]
pub(crate) struct Draft {
    alloc: Global,
    words: Vec<Word>,
}

impl Model for Draft {
    ghost use Rattle.ts_spec.specs.Wire.{Request};

    ghost Value = { Request };

    ghost view = { λ r. r.words.items };
}

impl Draft {
    // Creates one without words. Allocates nothing.
    pub(crate) fn new(alloc: Global) -> Draft
        ensures { result ≡ [] }
    {
        Draft {
            alloc,
            words: Vec::new(alloc),
        }
    }

    // Appends a word.
    pub(crate) fn put(&mut self, word: &[u8]) -> Result<(), AllocError>
        ensures { OnOk result (Appends self.old self.new (word.now ∷ [])) }
    {
        let word = Word::from_slice(self.alloc, word)?;
        self.words.push(word)?;
        Ok(())
    }

    // Appends a word of another request.
    pub(crate) fn put_word(&mut self, word: &Word) -> Result<(), AllocError>
        ensures { OnOk result (Appends self.old self.new (word.now ∷ [])) }
    {
        self.put(word.bytes())
    }

    // Appends a number of 32 bits in decimal.
    pub(crate) fn put_small_number(&mut self, number: u32) -> Result<(), AllocError>
        ensures { OnOk result (Appends self.old self.new (decimal number ∷ [])) }
    {
        self.put(Buffer::new().format(number).as_bytes())
    }

    // Appends a number in decimal.
    pub(crate) fn put_number(&mut self, number: u64) -> Result<(), AllocError>
        ensures { OnOk result (Appends self.old self.new (decimal number ∷ [])) }
    {
        self.put(Buffer::new().format(number).as_bytes())
    }

    // Appends an integer in decimal.
    pub(crate) fn put_integer(&mut self, number: i128) -> Result<(), AllocError>
        ensures { OnOk result (Appends self.old self.new (signed_decimal number ∷ [])) }
    {
        self.put(Buffer::new().format(number).as_bytes())
    }

    // Appends a value as it is printed.
    pub(crate) fn put_value(&mut self, value: Units) -> Result<(), AllocError>
        ensures { OnOk result (Appends self.old self.new (shown_value value ∷ [])) }
    {
        self.put(print(value, &mut [0; 32]))
    }

    // Appends a time, or `-` for none.
    pub(crate) fn put_time(&mut self, time: Option<u64>) -> Result<(), AllocError>
        ensures { OnOk result (Appends self.old self.new (time_word time ∷ [])) }
    {
        match time {
            None => self.put(b"-"),
            Some(time) => self.put_number(time),
        }
    }

    // The words so far.
    pub(crate) fn unchecked(self) -> Vec<Word>
        ensures { result.items ≡ self }
    {
        self.words
    }

    // All words of the record, with the check number.
    pub(crate) fn checked(self) -> Result<Vec<Word>, AllocError>
        ensures { IfOk result (λ words. words.items ≡ checked self) }
    {
        let check = check_number(&self.words);
        let mut words = self.words;
        if words.is_empty() {
            return Ok(words);
        }
        let check = Word::from_slice(self.alloc, Buffer::new().format(check).as_bytes())?;
        words.insert(1, check)?;
        Ok(words)
    }
}

// The check number of words.
pub(crate) fn check_number(words: &[Word]) -> u32
    ensures { result ≡ check_number words.now }
{
    let mut check = CheckNumber::new();
    for word in words {
        check.add(word.bytes());
    }
    check.get()
}
