//! The words of the command line, which may be any bytes.

ghost use Rattle.std.specs.Prelude.{All};
ghost use Rattle.b3_check.specs.Names.{IsName};

use b3_check::Name;
use hash_engines::names_of;
use std::alloc::{AllocError, Global};
use std::fs;
use std::io::ErrorKind;
use store_command_line::Fault;

// The file with the words of this process, each with a zero byte after it.
const WORDS: &str = "/proc/self/cmdline";

// The text of a word that is not UTF-8. No file can have this name.
const FOREIGN: &str = "/dev/null/\u{fffd}";

/// The words of the command line as texts, and the bytes of those that are not UTF-8.
#[derive(Drop)]
pub(crate) struct Words {
    pub texts: Vec<String>,
    foreign: Vec<Vec<u8>>,
}

impl Words {
    /// The words of this process.
    pub(crate) fn of_process(rt: &HostRuntime) -> Result<Words, Fault> {
        let alloc = rt.alloc();
        let mut words = Words {
            texts: Vec::new(alloc),
            foreign: Vec::new(alloc),
        };
        match std::env::args(rt) {
            Ok(texts) => words.texts = texts.collect(alloc)?,
            Err(error) if error.kind() == ErrorKind::OutOfMemory => return Err(Fault::NoMemory),
            Err(_) => match fs::read(rt, WORDS) {
                Ok(bytes) => words.add_all(alloc, bytes.as_slice())?,
                Err(_) => return Err(not_text(alloc)),
            },
        }
        Ok(words)
    }

    // Adds the words in bytes that have a zero byte after each.
    fn add_all(&mut self, alloc: Global, bytes: &[u8]) -> Result<(), AllocError> {
        let bytes = bytes.strip_suffix(b"\0").unwrap_or(bytes);
        for word in bytes.split(|byte| *byte == 0) {
            let text = str::from_utf8(word).unwrap_or(FOREIGN);
            self.texts.push(String::from_str(alloc, text)?)?;
            if str::from_utf8(word).is_err() {
                self.foreign.push(Vec::from_slice(alloc, word)?)?;
            }
        }
        Ok(())
    }

    /// Whether all words that are not UTF-8 are among these.
    pub(crate) fn has_all_foreign(&self, texts: &[&str]) -> bool {
        let count = texts.iter().filter(|text| **text == FOREIGN).count();
        self.foreign.is_empty() || count == self.foreign.len()
    }

    /// The names of files that these words are, among which are all that are not UTF-8.
    pub(crate) fn names(&self, alloc: Global, texts: &[&str]) -> Result<Vec<Name>, AllocError>
        requires { All (λ text. IsName text.now) texts.now }
    {
        if self.foreign.is_empty() {
            return names_of(alloc, texts);
        }
        let mut names = Vec::new(alloc);
        let mut foreign = self.foreign.iter();
        for text in texts {
            let mut bytes = text.as_bytes();
            if *text == FOREIGN {
                bytes = foreign.next().map(|word| word.as_slice()).unwrap_or(bytes);
            }
            if let Ok(name) = Name::new(Vec::from_slice(alloc, bytes)?) {
                names.push(name)?;
            }
        }
        Ok(names)
    }
}

/// The fault of a word that is not UTF-8 and doesn't name a file to hash.
pub(crate) fn not_text(alloc: Global) -> Fault {
    match String::from_str(alloc, "b3store: an argument is not UTF-8\n") {
        Ok(text) => Fault::Usage(text),
        Err(_) => Fault::NoMemory,
    }
}
