// Fields of a line, each a space and so many hexadecimal digits. They are read in parts, by their lengths: a head,
// margins, areas, a list.
use arrayvec::ArrayVec;
use hexadecimal::bits;

// Standard input.
const STDIN: i32 = 0;

// The most numbers of a list.
const MOST: usize = 24;

// The bytes of the longest part: a list of so many fields of sixteen digits.
pub(crate) const PART: usize = 408;

// A list of a line.
pub(crate) type List<T> = ArrayVec<T, MOST>;

// That a line is none.
#[derive(Clone, Copy)]
pub(crate) struct Fault;

// Reads a part of a line, which has so many bytes. What standard input has no more stands as zeros.
pub(crate) fn read_part(bytes: usize) -> [u8; PART] {
    let mut part = [b'0'; PART];
    let end = bytes.min(PART);
    io::read_full(STDIN, &mut part[..end]);
    part
}

// Reads a byte, if there is one.
pub(crate) fn read_byte() -> Option<u8> {
    let mut byte = [0];
    (io::read_full(STDIN, &mut byte) == 1).then_some(byte[0])
}

// Reads the end of a line.
pub(crate) fn read_end() -> Result<(), Fault> {
    if read_byte() == Some(b'\n') {
        Ok(())
    } else {
        Err(Fault)
    }
}

// What a field stands for, by its digits.
pub(crate) trait Field: Default + Drop {
    const DIGITS: u8;

    fn from_bits(bits: u64) -> Self;
}

impl Field for bool {
    const DIGITS: u8 = 2;

    fn from_bits(bits: u64) -> Self {
        bits > 0
    }
}

impl Field for u8 {
    const DIGITS: u8 = 2;

    fn from_bits(bits: u64) -> Self {
        (bits & 0xff) as u8
    }
}

impl Field for u32 {
    const DIGITS: u8 = 8;

    fn from_bits(bits: u64) -> Self {
        (bits & 0xffff_ffff) as u32
    }
}

impl Field for u64 {
    const DIGITS: u8 = 16;

    fn from_bits(bits: u64) -> Self {
        bits
    }
}

// What is left of a part.
#[derive(Drop)]
pub(crate) struct Fields<'a> {
    rest: &'a [u8],
}

impl<'a> Fields<'a> {
    pub(crate) fn new(part: &'a [u8; PART]) -> Self {
        Self { rest: part }
    }

    pub(crate) fn next<T: Field>(&mut self) -> Result<T, Fault> {
        let (_space, rest) = self.rest.split_first().ok_or(Fault)?;
        let (digits, rest) = rest.split_at_checked(usize::from(T::DIGITS)).ok_or(Fault)?;
        self.rest = rest;
        Ok(T::from_bits(bits(digits)))
    }
}

// Reads a list of so many fields, as far as it may have them.
pub(crate) fn read_list<T: Field>(count: u8) -> Result<List<T>, Fault> {
    let count = usize::from(count).min(MOST);
    let part = read_part(count * (1 + usize::from(T::DIGITS)));
    let mut fields = Fields::new(&part);
    let mut list = List::new();
    for _ in 0..count {
        let _fits = list.try_push(fields.next()?);
    }
    Ok(list)
}
