// Batched replies to a peer in memory.
use crate::peer::Peer;
use crate::streams::{read_two, write};
use std::alloc::Global;
use std::io;
use test_script::{Device, Script, answer_of, bytes_of, counted, done, number_of, shown};
use ts_io::{Batches, Failed, Source, write_all_counted};

/// `Batches 7`: the peer takes up to seven bytes a send. Its other fields are 0 until `coming`, `silent` and `fails`
/// set them. Once the calls on the batches end, those on the peer follow.
pub(crate) fn run(script: &mut Script, text: &str) -> io::Result<()> {
    let alloc = script.alloc();
    let mut calls = PeerCalls {
        peer: Peer::new(alloc, number_of(text) as usize),
    };
    script.run(&mut calls)?;
    let mut calls = BatchCalls {
        batches: Batches::new(alloc, calls.peer),
    };
    script.run(&mut calls)?;
    script.run(&mut PeerCalls {
        peer: calls.batches.into_connection(),
    })
}

// Calls that set the fields of the peer, and those that ask it: `taken` is how many bytes it has, `sends` how many
// sends it had, and `has BYTES` whether these are its bytes.
#[derive(Drop)]
struct PeerCalls {
    peer: Peer,
}

impl Device for PeerCalls {
    fn answer(&mut self, alloc: Global, verb: &str, text: &str) -> io::Result<Option<String>> {
        match verb {
            "coming" => self.peer.coming = number_of(text) as usize,
            "silent" => self.peer.silent = number_of(text),
            "fails" => self.peer.fails = true,
            "taken" => return answer_of(alloc, self.peer.taken.len()),
            "sends" => return answer_of(alloc, self.peer.sends),
            "has" => return has(alloc, &self.peer.taken, text),
            _ => return Ok(None),
        }
        shown(alloc, b"")
    }
}

fn has(alloc: Global, taken: &[u8], text: &str) -> io::Result<Option<String>> {
    let is_same = taken == bytes_of(alloc, text)?.as_slice();
    answer_of(alloc, is_same)
}

// The calls of sources and sinks, `waiting` and `send-all`.
#[derive(Drop)]
struct BatchCalls {
    batches: Batches<Peer>,
}

impl Device for BatchCalls {
    fn answer(&mut self, alloc: Global, verb: &str, text: &str) -> io::Result<Option<String>> {
        match verb {
            "read" => read_two(alloc, &mut self.batches),
            "waiting" => answer_of(alloc, self.batches.waiting()),
            "send-all" => done(alloc, self.batches.send_all()),
            "write-blocks" => done(
                alloc,
                write_blocks(&mut self.batches, &bytes_of(alloc, text)?),
            ),
            _ => write(alloc, &mut self.batches, verb, text),
        }
    }
}

// Writes blocks of 50,000 bytes, half of each in small pieces and half at once. Then two bytes are read.
fn write_blocks(batches: &mut Batches<Peer>, bytes: &[u8]) -> Result<(), Failed> {
    for block in bytes.chunks(50_000) {
        let (small, large) = block.split_at(block.len() / 2);
        for piece in small.chunks(70) {
            write_all_counted(batches, piece)?;
        }
        write_all_counted(batches, large)?;
        let mut buf = [0; 2];
        if batches.read(&mut buf)? != 2 || buf != *b"xx" {
            return Err(Failed);
        }
    }
    Ok(())
}
