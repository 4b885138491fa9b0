// Answers lines of input. A line is the number of a job's bytes as eight hexadecimal digits, the bytes as two digits each, and a line end. No
// more is read than these lengths say, and a job is answered before the next line is read.
use crate::block::{Block, STDOUT};
use crate::planned::Runs;
use arrayvec::ArrayVec;
use hexadecimal::bits;
use job_questions::MOST_BYTES;

// Standard input.
const STDIN: i32 = 0;

// The most bytes that are read: one more than a job may have.
const MOST: usize = MOST_BYTES + 1;

// Two digits for each byte, and a line end.
const TEXT: usize = 2 * MOST + 1;

// Reads the rest of a line, and the bytes of its job, of which there are so many, if it ends where it has to.
fn read_job(count: u64, text: &mut [u8; TEXT], job: &mut ArrayVec<u8, MOST>) -> Option<()> {
    if count > MOST as u64 {
        return None;
    }
    let length = 2 * count as usize + 1;
    if io::read_full(STDIN, &mut text[..length]) < length {
        return None;
    }
    let digits = text[..length].strip_suffix(b"\n")?;
    let bytes = digits.chunks_exact(2).map(|pair| (bits(pair) & 0xff) as u8);
    job.clear();
    job.extend(bytes).ok()
}

// Answers line after line, up to the first that is none.
pub(crate) fn answer_all() {
    let mut text = [0; TEXT];
    let mut job = ArrayVec::new();
    let mut runs = Runs::new();
    let mut out = Block::new();
    // Nothing says that the input ends, so the loop counts its turns, up to a number that no run reaches.
    for _ in 0..u64::MAX {
        let mut count = [0; 8];
        if io::read_full(STDIN, &mut count) == 0 {
            break;
        }
        if read_job(bits(&count), &mut text, &mut job).is_none() {
            io::write_all(STDOUT, b"bad line\n");
            break;
        }
        // A block takes all that it is given.
        let _ = runs.print_plan(&job, &mut out);
        let _ = out.end();
    }
}
