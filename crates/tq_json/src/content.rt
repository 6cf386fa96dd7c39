//! Names and contents of files as texts.

ghost use Rattle.std.specs.Prelude.{◌≡◌, IfOk};
ghost use Rattle.tq_json.specs.Member as spec;

use crate::format::Format;
use hex::FromHexError;
use std::alloc::{AllocError, Global};
use tq_shape::Memory;
use tq_store::{Content, FileName};

/// The name of a file that the text is.
pub fn name_of(text: &str) -> Option<FileName>
    ensures { result ≡ spec.name_of text.now }
{
    FileName::new(text.as_bytes())
}

/// The content that the text is. A text with more digits than a content of the format has takes no memory.
pub fn content_of(alloc: Global, format: Format, text: &str) -> Result<Option<Content>, Memory>
    ensures { IfOk result (λ content. content ≡ spec.content_of format text.now) }
{
    if text.is_empty() {
        return Ok(Some(Content::empty()));
    }
    let most_digits = 2 * format.most_content();
    if text.len() > most_digits {
        return Ok(None);
    }
    match hex::decode(alloc, text.as_bytes()) {
        Ok(bytes) => Content::new(bytes),
        Err(FromHexError::OutOfMemory) => Err(AllocError),
        Err(_) => Ok(None),
    }
}
