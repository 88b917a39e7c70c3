// Hubs in memory.
use std::alloc::{AllocError, Global};
use std::io;
use test_script::{
    Device, Script, answer_of, done, number_of, numbers_of, push_bytes, shown, silent,
};
use ts_io::{Failed, Hub, MemHub, Next, Packet, Step};

/// `MemHub 3 | 1:ask | pause | 1:`: fails at these calls, and then the steps: bytes of a link, or a pause.
pub(crate) fn in_memory(script: &mut Script, text: &str) -> io::Result<()> {
    let alloc = script.alloc();
    let (fail, steps) = text.split_once(" | ").unwrap_or((text, ""));
    let hub = MemHub::new(alloc, steps_of(alloc, steps)?, numbers_of(alloc, fail)?);
    script.run(&mut HubCalls { hub })
}

fn steps_of(alloc: Global, text: &str) -> Result<Vec<Step>, AllocError> {
    let mut steps = Vec::new(alloc);
    for step in text.split(" | ") {
        match step.split_once(':') {
            Some((link, bytes)) => {
                let packet = Packet::new(alloc, number_of(link), bytes.as_bytes())?;
                steps.push(Step::Comes(packet))?;
            }
            None if step.is_empty() => {}
            None => steps.push(Step::Pauses)?,
        }
    }
    Ok(steps)
}

// Its calls are those of hubs, with `give 1 one` for a link and bytes, and `sent`.
#[derive(Drop)]
struct HubCalls {
    hub: MemHub,
}

impl Device for HubCalls {
    fn answer(&mut self, alloc: Global, verb: &str, text: &str) -> io::Result<Option<String>> {
        match verb {
            "open" => done(alloc, self.hub.open(text)),
            "next" => next(alloc, self.hub.next()),
            "bytes" => shown(alloc, self.hub.bytes()),
            "give" => give(alloc, &mut self.hub, text),
            "let-out" => {
                self.hub.let_out();
                silent(alloc)
            }
            "close" => {
                self.hub.close(number_of(text));
                silent(alloc)
            }
            "sent" => sent(alloc, self.hub.sent()),
            _ => Ok(None),
        }
    }
}

fn next(alloc: Global, outcome: Result<Next, Failed>) -> io::Result<Option<String>> {
    match outcome {
        Ok(next) => answer_of(alloc, format_args!("{next:?}")),
        Err(_) => answer_of(alloc, "failed"),
    }
}

fn give(alloc: Global, hub: &mut MemHub, text: &str) -> io::Result<Option<String>> {
    let (link, bytes) = text.split_once(' ').unwrap_or((text, ""));
    done(alloc, hub.give(number_of(link), bytes.as_bytes()))
}

// The links and bytes that were let out.
fn sent(alloc: Global, packets: &[Packet]) -> io::Result<Option<String>> {
    let mut list = String::new(alloc);
    for packet in packets {
        let link = packet.link;
        list.push_str(&format!(in alloc; "{link}:")?)?;
        push_bytes(&mut list, &packet.bytes)?;
        list.push(' ')?;
    }
    Ok(Some(list))
}
