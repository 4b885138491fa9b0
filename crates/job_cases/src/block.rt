// Lines on standard output, many in one write. A write that fails is passed over.
use arrayvec::ArrayVec;
use std::io::Write;

// Standard output.
pub(crate) const STDOUT: i32 = 1;

// The bytes that a block has room for, and the most bytes of a line, or of the first lines.
const BLOCK: usize = 65_536;

pub(crate) const LINE: usize = 256;

// The bytes that are not written yet.
#[derive(Drop)]
pub(crate) struct Block {
    bytes: ArrayVec<u8, BLOCK>,
}

impl Block {
    pub(crate) fn new() -> Self {
        Self {
            bytes: ArrayVec::new(),
        }
    }

    // An empty line, for which a block always has room, and all is written.
    pub(crate) fn end(&mut self) -> std::io::Result<()> {
        self.bytes.write_all(b"\n")?;
        self.flush()
    }
}

impl Write for Block {
    // Takes a line; a block that may have no room for it is written first.
    fn write(&mut self, line: &[u8]) -> std::io::Result<usize> {
        if self.bytes.len() >= BLOCK - LINE {
            self.flush()?;
        }
        self.bytes.write(line)
    }

    fn flush(&mut self) -> std::io::Result<()> {
        io::write_all(STDOUT, &self.bytes);
        self.bytes.clear();
        Ok(())
    }
}
