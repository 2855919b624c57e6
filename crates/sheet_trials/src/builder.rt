// Sheets made byte by byte, sound or not.
use std::alloc::{AllocError, Global};

// The bytes of a sheet.
#[derive(Drop)]
pub(crate) struct Builder {
    pub(crate) bytes: Vec<u8>,
}

impl Builder {
    // A sheet with a rule field alone.
    pub(crate) fn new(alloc: Global, letter: u8) -> Result<Builder, AllocError> {
        let mut b = Builder {
            bytes: Vec::new(alloc),
        };
        b.put(&[0x01, 0, 1, letter])?;
        Ok(b)
    }

    // Puts bytes last.
    pub(crate) fn put(&mut self, bytes: &[u8]) -> Result<(), AllocError> {
        self.bytes.extend_from_slice(bytes)
    }

    // Puts a flow field last: period and deadline 100, latency 1, from router (0,0) to router (0,1).
    pub(crate) fn flow(&mut self, label: u8) -> Result<(), AllocError> {
        self.put(&[0x02, 0, 22, 0, label])?;
        self.put(&[0, 0, 0, 100, 0, 0, 0, 100, 0, 0, 0, 0, 0, 0, 0, 1])?;
        self.put(&[0, 0, 0, 1])
    }

    // Puts flows with the labels 1 to `last`.
    pub(crate) fn flows(&mut self, last: u8) -> Result<(), AllocError> {
        for label in 1..=last {
            self.flow(label)?;
        }
        Ok(())
    }

    // Puts a reserve field last.
    pub(crate) fn reserve(&mut self, ticks: u32) -> Result<(), AllocError> {
        self.put(&[0x03, 0, 4])?;
        self.put(&ticks.to_be_bytes())
    }

    // Puts so many pair fields last, each naming the flows 1 and 2.
    pub(crate) fn pairs(&mut self, count: u8) -> Result<(), AllocError> {
        for _ in 0..count {
            self.put(&[0x04, 0, 4, 0, 1, 0, 2])?;
        }
        Ok(())
    }

    // Puts the end field last.
    pub(crate) fn end(&mut self) -> Result<(), AllocError> {
        self.put(&[0x05, 0, 0])
    }
}
