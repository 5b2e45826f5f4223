//! The words that the program was started with.

ghost use Rattle.std.specs.Prelude.{◌≡◌};

use crate::fault::WordsFault;
use std::{env, io};

// The fault of words that can't be had.
fn fault_of_words(error: &io::Error) -> WordsFault {
    match error.kind() {
        io::ErrorKind::InvalidData => WordsFault::Usage,
        _ => WordsFault::Memory,
    }
}

/// The words after the program's name. It is a fault of usage where one of them, or the name, isn't
/// UTF-8.
pub fn process_words(rt: &HostRuntime) -> Result<Vec<String>, WordsFault> {
    let args = match env::args(rt) {
        Ok(args) => args,
        Err(error) => return Err(fault_of_words(&error)),
    };
    let mut words = Vec::new(rt.alloc());
    for word in args.skip(1) {
        if words.push(word).is_err() {
            return Err(WordsFault::Memory);
        }
    }
    Ok(words)
}
