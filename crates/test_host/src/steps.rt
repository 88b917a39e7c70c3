// What a hub brings, as lines.
use crate::texts::{packet_of, push_text};
use std::alloc::{AllocError, Global};
use ts_io::{Packet, Step};

// Appends what a line brings. Returns whether it is such a line.
pub(crate) fn take(
    alloc: Global,
    steps: &mut Vec<Step>,
    verb: &str,
    text: &str,
) -> Result<bool, AllocError> {
    match verb {
        "sends" | "closes" => push_packet(alloc, steps, text),
        "spells" => spell(alloc, steps, text),
        "both-spell" => spell_by_turns(alloc, steps, text),
        "pauses" => {
            steps.push(Step::Pauses)?;
            Ok(true)
        }
        _ => Ok(false),
    }
}

// No bytes mean that the link has closed.
fn push_packet(alloc: Global, steps: &mut Vec<Step>, text: &str) -> Result<bool, AllocError> {
    let Some(packet) = packet_of(alloc, text)? else {
        return Ok(false);
    };
    steps.push(Step::Comes(packet))?;
    Ok(true)
}

fn spell(alloc: Global, steps: &mut Vec<Step>, text: &str) -> Result<bool, AllocError> {
    let Some(packet) = packet_of(alloc, text)? else {
        return Ok(false);
    };
    for byte in &packet.bytes {
        push_byte(alloc, steps, packet.link, *byte)?;
    }
    Ok(true)
}

fn spell_by_turns(alloc: Global, steps: &mut Vec<Step>, text: &str) -> Result<bool, AllocError> {
    let mut bytes = Vec::new(alloc);
    if !push_text(&mut bytes, text)? {
        return Ok(false);
    }
    for byte in &bytes {
        push_byte(alloc, steps, 1, *byte)?;
        push_byte(alloc, steps, 2, *byte)?;
    }
    Ok(true)
}

fn push_byte(alloc: Global, steps: &mut Vec<Step>, link: u64, byte: u8) -> Result<(), AllocError> {
    steps.push(Step::Comes(Packet::new(alloc, link, &[byte])?))?;
    Ok(())
}
