// Whether a later run has the keys whose writes were acknowledged.
use crate::run::run;
use crate::setting::{Setting, words_of};
use std::alloc::{AllocError, Global};
use ts_io::{Packet, Step};

// A link, and the keys that it writes, one with each request.
#[derive(Drop)]
pub(crate) struct Writer {
    link: u64,
    keys: Vec<String>,
}

impl Writer {
    // Parses the number of a link and its keys.
    pub(crate) fn of(alloc: Global, text: &str) -> Result<Option<Self>, AllocError> {
        let (link, keys) = text.split_once(' ').unwrap_or((text, ""));
        let Ok(link) = link.parse::<u64>() else {
            return Ok(None);
        };
        let keys = words_of(alloc, keys)?;
        Ok(Some(Writer { link, keys }))
    }
}

// Whether a later run lacks a key of these writers that was acknowledged.
pub(crate) fn is_key_lost(setting: Setting, writers: &[Writer]) -> Result<bool, AllocError> {
    let alloc = setting.alloc;
    let seen = run(setting)?;
    for writer in writers {
        let later = run(asking(alloc, seen.log.bytes(), &writer.keys)?)?;
        if is_one_lost(writer.link, seen.hub.sent(), later.hub.sent()) {
            return Ok(true);
        }
    }
    Ok(false)
}

// A run over this journal that asks which of the keys are there.
fn asking(alloc: Global, journal: &[u8], keys: &[String]) -> Result<Setting, AllocError> {
    let mut requests = Vec::new(alloc);
    for key in keys {
        requests.extend_from_slice(b"EXISTS ")?;
        requests.extend_from_slice(key.as_str().as_bytes())?;
        requests.extend_from_slice(b"\r\n")?;
    }
    let mut setting = Setting::new(alloc, "host here j")?;
    setting.had.extend_from_slice(journal)?;
    setting.steps.push(Step::Comes(Packet {
        link: 1,
        bytes: requests,
    }))?;
    Ok(setting)
}

// Whether a key is lost although the reply of this link is no error. The replies and the answers have the order of the
// keys.
fn is_one_lost(link: u64, replies: &[Packet], answers: &[Packet]) -> bool {
    let mut answers = answers.iter();
    for reply in replies {
        if reply.link == link
            && let Some(answer) = answers.next()
            && !is_error(reply)
            && answer.bytes.as_slice() == b":0\r\n".as_slice()
        {
            return true;
        }
    }
    false
}

fn is_error(reply: &Packet) -> bool {
    match reply.bytes.as_slice() {
        [first, ..] => *first == b'-',
        [] => false,
    }
}
