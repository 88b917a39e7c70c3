// What earlier lines have defined: names of bytes, and scenes.
use crate::texts::push_text;
use std::alloc::{AllocError, Global};

// A name, and the bytes that it stands for.
#[derive(Drop)]
struct Definition {
    name: String,
    bytes: Vec<u8>,
}

// A name, and the lines that tests take over by it.
#[derive(Drop)]
struct Scene {
    name: String,
    lines: Vec<String>,
}

#[derive(Drop)]
pub(crate) struct Known {
    alloc: Global,
    definitions: Vec<Definition>,
    scenes: Vec<Scene>,
}

impl Known {
    pub(crate) fn new(alloc: Global) -> Self {
        Known {
            alloc,
            definitions: Vec::new(alloc),
            scenes: Vec::new(alloc),
        }
    }

    // Adds a line to its group. A comment or a definition adds nothing, and `as` the lines of a scene.
    pub(crate) fn add(&mut self, line: String, lines: &mut Vec<String>) -> Result<(), AllocError> {
        let (verb, text) = line.as_str().split_once(' ').unwrap_or((line.as_str(), ""));
        let is_done = match verb {
            "define" => self.define(text)?,
            "as" => self.take_over(text, lines)?,
            _ => verb.starts_with('#'),
        };
        if is_done {
            return Ok(());
        }
        // A definition that cannot be read, or a scene that is not known, fails its group, which may have no name.
        if lines.is_empty() && (verb == "define" || verb == "as") {
            lines.push(String::from_str(self.alloc, "a test without a name")?)?;
        }
        lines.push(line)?;
        Ok(())
    }

    fn define(&mut self, text: &str) -> Result<bool, AllocError> {
        let (name, text) = text.split_once(' ').unwrap_or((text, ""));
        let mut bytes = Vec::new(self.alloc);
        if !self.set_content(&mut bytes, text)? {
            return Ok(false);
        }
        let name = String::from_str(self.alloc, name)?;
        self.definitions.push(Definition { name, bytes })?;
        Ok(true)
    }

    fn take_over(&self, name: &str, lines: &mut Vec<String>) -> Result<bool, AllocError> {
        for scene in &self.scenes {
            if scene.name.as_str() == name {
                push_lines(self.alloc, lines, &scene.lines)?;
                return Ok(true);
            }
        }
        Ok(false)
    }

    // Keeps these lines under this name.
    pub(crate) fn keep_scene(&mut self, name: &str, others: &[String]) -> Result<(), AllocError> {
        let mut lines = Vec::new(self.alloc);
        push_lines(self.alloc, &mut lines, others)?;
        let name = String::from_str(self.alloc, name)?;
        self.scenes.push(Scene { name, lines })?;
        Ok(())
    }

    // Replaces bytes by those of the parts of a text. Returns whether they could be read.
    pub(crate) fn set_content(&self, bytes: &mut Vec<u8>, text: &str) -> Result<bool, AllocError> {
        bytes.clear();
        for part in text.split(" + ") {
            if !self.push_part(bytes, part)? {
                return Ok(false);
            }
        }
        Ok(true)
    }

    fn push_part(&self, bytes: &mut Vec<u8>, part: &str) -> Result<bool, AllocError> {
        for definition in &self.definitions {
            if definition.name.as_str() == part {
                bytes.extend_from_slice(&definition.bytes)?;
                return Ok(true);
            }
        }
        push_text(bytes, part)
    }
}

fn push_lines(alloc: Global, lines: &mut Vec<String>, more: &[String]) -> Result<(), AllocError> {
    for line in more {
        lines.push(String::from_str(alloc, line.as_str())?)?;
    }
    Ok(())
}
