use crate::reader::Reader;
use std::io;
use std::thread::JoinHandle;

/// Starts readers, each in a thread of its own. A wire that is generic in its runtime can't start a thread
/// itself, so whoever has the runtime hands it a way to.
#[derive(Drop)]
pub struct Launcher {
    pub start: Box<dyn Fn(Reader) -> io::Result<JoinHandle<()>> + Drop>,
    pub ghost ready: { IsAlwaysCallable start },
}

impl Launcher {
    pub fn new(start: Box<dyn Fn(Reader) -> io::Result<JoinHandle<()>> + Drop>) -> Launcher
        requires { IsAlwaysCallable start }
    {
        Launcher { start }
    }

    pub(crate) fn launch(&self, reader: Reader) -> io::Result<JoinHandle<()>> {
        (self.start)(reader)
    }
}
