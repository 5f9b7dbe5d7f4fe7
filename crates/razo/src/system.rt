// What the tool asks of the system: the words of the command line, files, and where its lines go.
use std::env::Env;
use std::fs::Files;
use std::io;

// Standard output, as a `Print`, and standard error.
pub(crate) trait Streams: Print {
    // The bytes need not be text, as what std's `Eprint` writes has to be: a name may have any.
    fn write_error(&self, bytes: &[u8]) -> io::Result<()>;
}

impl Streams for HostRuntime {
    fn write_error(&self, bytes: &[u8]) -> io::Result<()> {
        self.stderr().write_all(bytes)
    }
}

pub(crate) trait System: Streams + Files + Env + Input {}

impl System for HostRuntime {}
