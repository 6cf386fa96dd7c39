//! What the program is given: the name of a scenario, and journals.

use crate::wrong::Wrong;
use std::alloc::Global;
use std::io::Read;
use std::{env, io};
use tq_board::{ReadFault, journals_from_json, journals_to_json};
use tq_tables::Journals;

/// The only word.
pub(crate) fn word(rt: &HostRuntime) -> Result<String, Wrong> {
    match words(rt) {
        Ok(mut words) => words.pop().ok_or(Wrong::Input),
        Err(_) => Err(Wrong::Memory),
    }
}

fn words(rt: &HostRuntime) -> io::Result<Vec<String>> {
    let mut words = Vec::new(rt.alloc());
    for word in env::args(rt)? {
        words.push(word)?;
    }
    Ok(words)
}

/// The journals of the input, which are read once more where memory is refused.
pub(crate) fn journals(rt: &HostRuntime) -> Result<Journals, Wrong> {
    let text = bytes(rt)?;
    let alloc = rt.alloc();
    let read = match journals_from_json(alloc, text.as_slice()) {
        Err(ReadFault::Memory) => journals_from_json(alloc, text.as_slice()),
        told => told,
    };
    match read {
        Ok(journals) => Ok(journals),
        Err(ReadFault::Memory) => Err(Wrong::Memory),
        Err(_) => Err(Wrong::Input),
    }
}

/// All bytes of the input.
fn bytes(rt: &HostRuntime) -> Result<Vec<u8>, Wrong> {
    let mut reader = rt.reader();
    let mut bytes = Vec::new(rt.alloc());
    match reader.read_to_end(&mut bytes) {
        Ok(_count) => Ok(bytes),
        Err(error) if error.kind() == io::ErrorKind::OutOfMemory => Err(Wrong::Memory),
        Err(_) => Err(Wrong::Input),
    }
}

/// The journals as text, written once more where memory is refused.
pub(crate) fn text_of(alloc: Global, journals: &Journals) -> Result<String, Wrong> {
    match journals_to_json(alloc, journals) {
        Ok(text) => Ok(text),
        Err(_) => Ok(journals_to_json(alloc, journals)?),
    }
}
