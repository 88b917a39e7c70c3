// TS.ADD without options, or with ON_DUPLICATE alone. Most samples arrive this way, so it is parsed in place, without
// building a command.
ghost use Rattle.std.specs.Prelude.{[], ◌∷◌, Some, IfSome};
ghost use Rattle.ts_spec.specs.Settings.{IsTime};
ghost use Rattle.ts_command.specs.OnDuplicate.{SayPolicy};

use crate::given::Given;
use crate::names::policy_named;
use crate::words::{at_word, value_word};
use std::alloc::Global;
use ts_agg::is_name;
use ts_labels::Spec;
use ts_resp::Word;
use ts_sample::Units;
use ts_spec::{At, Policy};

/// A sample to add to a series. If the series does not exist, it is created with default options and no labels.
#[derive(Clone, Copy)]
pub struct SimpleAdd<'a> {
    pub key: &'a Word,
    pub at: At,
    pub value: Units,
    /// How to merge with a sample at the same time, instead of by the duplicate policy of the series.
    pub on: Option<Policy>,
    ghost time_fits: { IsTime at },
}

impl<'a> SimpleAdd<'a> {
    ghost use Rattle.std.specs.Prelude.{◌≡◌, List, ◌∷◌, Ok, IfSome};
    ghost use Rattle.ts_spec.specs.Grammar.{command};
    ghost use Rattle.ts_spec.specs.Settings.{nothing};
    ghost use Rattle.ts_spec.specs.SeriesOptions.{spec};
    ghost use Rattle.ts_labels.specs.Spec.{spec_of};
    ghost use Rattle.ts_command.specs.SimpleAdd.{simple_add_of};
    ghost use Rattle.ts_command.specs.OnDuplicate.{SayPolicy};

    /// Parses TS.ADD without options or with ON_DUPLICATE alone. Returns `None` for anything else, errors included: use
    /// `read` then.
    pub fn read(words: &'a [Word]) -> Option<SimpleAdd<'a>>
        ensures { IfSome result (λ a. command words.now ≡ Ok (simple_add_of a)) }
    {
        match words {
            [name, key, time, value] => SimpleAdd::from_arguments(name, key, time, value, None),
            [name, key, time, value, option, policy] => {
                let policy = on_duplicate(option, policy)?;
                SimpleAdd::from_arguments(name, key, time, value, Some(policy))
            }
            _ => None,
        }
    }

    // Parses TS.ADD with these arguments and the policy given by ON_DUPLICATE, if any.
    #[inline]
    fn from_arguments(
        name: &Word,
        key: &'a Word,
        time: &Word,
        value: &Word,
        on: Option<Policy>,
    ) -> Option<SimpleAdd<'a>>
        ensures { IfSome result (λ a. (options : List Word) → SayPolicy on options
            → command (name.now ∷ key.now ∷ time.now ∷ value.now ∷ options) ≡ Ok (simple_add_of a)) }
    {
        if !is_name(b"TS.ADD", name.bytes()) {
            return None;
        }
        let Ok(at) = at_word(time.bytes()) else {
            return None;
        };
        let Ok(value) = value_word(value.bytes()) else {
            return None;
        };
        Some(SimpleAdd { key, at, value, on })
    }

    /// The options and labels of a series that this command creates.
    pub fn spec(alloc: Global) -> Spec
        ensures { spec_of result ≡ spec nothing }
    {
        Given::default_spec(alloc)
    }
}

// The policy of `ON_DUPLICATE policy`, if the words are that.
fn on_duplicate(option: &Word, word: &Word) -> Option<Policy>
    ensures { IfSome result (λ policy. SayPolicy (Some policy) (option.now ∷ word.now ∷ [])) }
{
    if !is_name(b"ON_DUPLICATE", option.bytes()) {
        return None;
    }
    policy_named(word.bytes())
}
