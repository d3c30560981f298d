//! Files of scenarios, and the blocks in which they stand.
use std::alloc::{AllocError, Global};

/// How the lines of a file are read.
#[derive(Clone, Copy, PartialEq)]
pub(crate) enum Form {
    /// Lines that are said, each with those that are told.
    Talk,
    /// Steps of a script, each with its notes.
    Script,
    /// Parts alone, which later files use.
    Parts,
}

impl Form {
    /// The form of a file, by the end of its name.
    pub(crate) fn of(name: &str) -> Form {
        if name.ends_with(".script") {
            Form::Script
        } else if name.ends_with(".parts") {
            Form::Parts
        } else {
            Form::Talk
        }
    }
}

/// A file that was read.
#[derive(Drop)]
pub(crate) struct File {
    pub(crate) name: String,
    pub(crate) form: Form,
    pub(crate) text: String,
}

/// Lines with a name, and the number of the first in its file.
#[derive(Clone, Copy)]
pub(crate) struct Part<'a> {
    pub(crate) name: &'a str,
    pub(crate) lines: &'a str,
    pub(crate) first: u32,
}

/// A scenario, or a part of scenarios.
#[derive(Clone, Copy)]
pub(crate) struct Block<'a> {
    pub(crate) is_part: bool,
    pub(crate) part: Part<'a>,
}

/// The number of the line after so many line feeds.
fn line_after(text: &str, line: u32) -> u32 {
    let mut after = line;
    for octet in text.as_bytes() {
        if *octet == b'\n' {
            after = after.wrapping_add(1);
        }
    }
    after
}

/// The blocks of a file, in order. What stands before the first is said of the whole file.
pub(crate) fn blocks(alloc: Global, text: &str) -> Result<Vec<Block<'_>>, AllocError> {
    let mut blocks = Vec::new(alloc);
    let mut line = 1u32;
    for (place, block) in text.split("\n== ").enumerate() {
        if place > 0 {
            let (head, lines) = block.split_once('\n').unwrap_or((block, ""));
            let (is_part, name) = match head.strip_prefix("part ") {
                Some(name) => (true, name),
                None => (false, head),
            };
            let first = line.wrapping_add(1);
            blocks.push(Block {
                is_part,
                part: Part { name, lines, first },
            })?;
        }
        line = line_after(block, line).wrapping_add(1);
    }
    Ok(blocks)
}
