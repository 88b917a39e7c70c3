// The keys of a workload, and the requests that create them and their rules.
ghost use Rattle.std.specs.Prelude.{◌≡◌, ◌<◌, ◌++◌, codes, OnOk};
ghost use Rattle.ts_spec.specs.Encoded.{encoded, encoded_request};
ghost use Rattle.ts_gen.specs.Workload as workload;
ghost use Rattle.ts_gen.specs.Workload.{create, create_rule, for_each_unit, set_up};

use crate::words::{write_request_number, write_request_start, write_request_word};
use std::alloc::AllocError;

// How many keys each kind has.
pub(crate) const UNITS: u8 = 4;

// The key of a kind and a unit, such as `avg:3`.
pub(crate) fn key(kind: &[u8; 3], unit: u8) -> [u8; 5]
    requires { unit < 10 }
    ensures { result ≡ workload.key kind.now unit }
{
    let [first, second, third] = *kind;
    [first, second, third, b':', b'0' + unit]
}

// Writes the requests that create the keys and the rules.
pub(crate) fn write_set_up(bytes: &mut Vec<u8>) -> Result<(), AllocError>
    ensures { OnOk result (bytes.new.items ≡ bytes.old.items ++ encoded set_up) }
{
    write_keys_of_kind(bytes, b"raw")?;
    write_keys_of_kind(bytes, b"avg")?;
    write_keys_of_kind(bytes, b"max")?;
    write_rules_of_kind(bytes, b"avg")?;
    write_rules_of_kind(bytes, b"max")
}

// Writes the requests that create the keys of a kind.
fn write_keys_of_kind(bytes: &mut Vec<u8>, kind: &[u8; 3]) -> Result<(), AllocError>
    ensures { OnOk result (bytes.new.items ≡ bytes.old.items ++ encoded (for_each_unit (create kind.now))) }
{
    for unit in 0..UNITS {
        write_key_creation(bytes, kind, unit)?;
    }
    Ok(())
}

// Writes the requests that create the rules into the keys of a kind.
fn write_rules_of_kind(bytes: &mut Vec<u8>, kind: &[u8; 3]) -> Result<(), AllocError>
    ensures { OnOk result (bytes.new.items ≡ bytes.old.items ++ encoded (for_each_unit (create_rule kind.now))) }
{
    for unit in 0..UNITS {
        write_rule_creation(bytes, kind, unit)?;
    }
    Ok(())
}

// Writes the request that creates a key.
fn write_key_creation(bytes: &mut Vec<u8>, kind: &[u8; 3], unit: u8) -> Result<(), AllocError>
    requires { unit < 10 }
    ensures { OnOk result (bytes.new.items ≡ bytes.old.items ++ encoded_request (create kind.now unit)) }
{
    write_request_start(bytes, 7)?;
    write_request_word(bytes, b"TS.CREATE")?;
    write_request_word(bytes, &key(kind, unit))?;
    write_request_word(bytes, b"LABELS")?;
    write_request_word(bytes, b"kind")?;
    write_request_word(bytes, kind)?;
    write_request_word(bytes, b"unit")?;
    write_request_number(bytes, unit.into())
}

// Writes the request that creates a rule.
fn write_rule_creation(bytes: &mut Vec<u8>, kind: &[u8; 3], unit: u8) -> Result<(), AllocError>
    requires { unit < 10 }
    ensures { OnOk result (bytes.new.items ≡ bytes.old.items ++ encoded_request (create_rule kind.now unit)) }
{
    write_request_start(bytes, 6)?;
    write_request_word(bytes, b"TS.CREATERULE")?;
    write_request_word(bytes, &key(b"raw", unit))?;
    write_request_word(bytes, &key(kind, unit))?;
    write_request_word(bytes, b"AGGREGATION")?;
    write_request_word(bytes, kind)?;
    write_request_word(bytes, b"60000")
}
