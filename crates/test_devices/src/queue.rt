// A queue of bytes to send.
use std::alloc::Global;
use std::io;
use test_script::{Device, Script, answer_of, bytes_of, number_of, silent};
use ts_io::Waiting;

/// `Waiting`, an empty queue. Its calls are `push BYTES`, `len`, `drop-front 1` and `ends-with BYTES`.
pub(crate) fn run(script: &mut Script) -> io::Result<()> {
    let waiting = Waiting::new(script.alloc());
    script.run(&mut QueueCalls { waiting })
}

#[derive(Drop)]
struct QueueCalls {
    waiting: Waiting,
}

impl Device for QueueCalls {
    fn answer(&mut self, alloc: Global, verb: &str, text: &str) -> io::Result<Option<String>> {
        match verb {
            "push" => answer_of(alloc, self.waiting.push(&bytes_of(alloc, text)?).is_ok()),
            "len" => answer_of(alloc, self.waiting.len()),
            "drop-front" => {
                drop_front(&mut self.waiting, number_of(text) as usize);
                silent(alloc)
            }
            "ends-with" => answer_of(alloc, self.waiting.as_slice().ends_with(text.as_bytes())),
            _ => Ok(None),
        }
    }
}

// Drops this many bytes, or all if there are fewer.
fn drop_front(waiting: &mut Waiting, count: usize) {
    let count = count.min(waiting.len());
    waiting.drop_front(count);
}
