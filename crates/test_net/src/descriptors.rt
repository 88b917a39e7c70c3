// Connections that find no descriptor.
use crate::links::EchoCalls;
use std::alloc::Global;
use std::io;
use std::net::TcpListener;
use test_script::{Device, Script, silent};

/// More descriptors than Linux lets a process open by default.
const MOST: usize = 1_100_000;

/// Runs calls of a hub and its clients, up to `fill`, which opens as many descriptors as the process may. Then there
/// are those calls, `free-one` and `free-all`.
pub(crate) fn run(rt: &HostRuntime, script: &mut Script) -> io::Result<()> {
    let mut calls = EchoCalls::new(rt)?;
    script.run(&mut calls)?;
    let fill = open_many(rt, MOST)?;
    if fill.len() >= MOST {
        // This process may open more than the test can.
        script.skip();
        return Ok(());
    }
    script.check("fill", silent(rt.alloc())?)?;
    script.run(&mut FilledCalls { calls, fill })
}

#[derive(Drop)]
struct FilledCalls<'a> {
    calls: EchoCalls<'a>,
    fill: Vec<TcpListener>,
}

impl Device for FilledCalls<'_> {
    fn answer(&mut self, alloc: Global, verb: &str, text: &str) -> io::Result<Option<String>> {
        match verb {
            "free-one" => {
                self.fill.pop();
            }
            "free-all" => self.fill.clear(),
            _ => return self.calls.answer(alloc, verb, text),
        }
        silent(alloc)
    }
}

/// Opens as many descriptors as the process may, at most one more than `most`.
pub(crate) fn open_many(rt: &HostRuntime, most: usize) -> io::Result<Vec<TcpListener>> {
    let listener = TcpListener::bind(rt, "127.0.0.1:0")?;
    let mut opened = Vec::new(rt.alloc());
    for _ in 0..most {
        match listener.try_clone() {
            Ok(more) => opened.push(more)?,
            Err(_) => break,
        }
    }
    opened.push(listener)?;
    Ok(opened)
}
