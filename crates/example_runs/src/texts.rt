//! The text of each example beside its feed.

use feed_text::assemble::assemble;
use feed_text::show::show;
use std::alloc::Global;
use std::io::ErrorKind;
use std::rt::Files;
use std::{fs, io};

/// Whether a text stands for these bytes.
fn stands_for(alloc: Global, text: &[u8], feed: &[u8]) -> bool {
    match assemble(alloc, text) {
        Ok(assembled) => assembled.as_slice() == feed,
        Err(_) => false,
    }
}

/// Whether what is shown of a feed stands for it.
fn is_shown(alloc: Global, feed: &[u8]) -> io::Result<bool> {
    match show(alloc, feed) {
        Ok(shown) => Ok(stands_for(alloc, shown.as_slice(), feed)),
        Err(_) => Err(ErrorKind::OutOfMemory.into()),
    }
}

/// Reads a file of an example.
fn file<H: Files + Alloc<A = Global>>(rt: &H, name: &str, ending: &str) -> io::Result<Vec<u8>> {
    let path = format!(in rt.alloc(); "{name}.{ending}")?;
    fs::read(rt, path.as_str())
}

/// What there is to say of the text of an example: whether it stands for the feed beside it, and what
/// is shown of the feed too.
pub fn said_of_text<H: Files + Alloc<A = Global>>(rt: &H, name: &str) -> io::Result<&'static str> {
    let alloc = rt.alloc();
    let feed = file(rt, name, "feed")?;
    let text = file(rt, name, "txt")?;
    if !stands_for(alloc, text.as_slice(), feed.as_slice()) {
        return Ok("its text stands for another feed");
    }
    if !is_shown(alloc, feed.as_slice())? {
        return Ok("what is shown of it stands for another feed");
    }
    Ok("there and back")
}
