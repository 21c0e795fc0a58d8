//! Calls of the system that a signal interrupts.

use std::io;
use std::io::ErrorKind;

/// Makes the call again as long as a signal interrupts it.
pub fn uninterrupted<T: Drop, F: FnMut() -> io::Result<T>>(mut call: F) -> io::Result<T>
    requires { F.IsAlwaysCallable call }
{
    for _ in 0..u64::MAX {
        match call() {
            Err(error) if error.kind() == ErrorKind::Interrupted => {}
            done => return done,
        }
    }
    Err(io::Error::from(ErrorKind::Interrupted))
}
