//! Readers and writers for tests.
use std::alloc::AllocError;
use std::io;
use std::io::{Read, Write};

/// A reader that gives its octets one a read, and then ends or fails.
#[derive(Drop)]
pub struct OneByOne<'a> {
    pub left: &'a [u8],
    pub fails: bool,
}

impl Read for OneByOne<'_> {
    fn read(&mut self, octets: &mut [u8]) -> io::Result<usize> {
        if octets.is_empty() {
            return Ok(0);
        }
        match self.left.split_first() {
            Some((first, rest)) => {
                octets[0] = *first;
                self.left = rest;
                Ok(1)
            }
            None if self.fails => Err(io::Error::from(io::ErrorKind::Other)),
            None => Ok(0),
        }
    }
}

/// A writer that takes a number of octets, one a write, and then fails.
#[derive(Drop)]
pub struct Narrow {
    pub taken: Vec<u8>,
    pub room: usize,
}

impl Write for Narrow {
    fn write(&mut self, octets: &[u8]) -> io::Result<usize> {
        if octets.is_empty() {
            return Ok(0);
        }
        if self.taken.len() >= self.room {
            return Err(io::Error::from(io::ErrorKind::Other));
        }
        self.taken.push(octets[0]).map_err(AllocError::from)?;
        Ok(1)
    }

    fn flush(&mut self) -> io::Result<()> {
        Ok(())
    }
}
