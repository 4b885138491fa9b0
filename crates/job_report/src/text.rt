// Text in ASCII. No `Display`: a `write!` answers a `Result`, and that a lent array has the room, so that it is `Ok`, would have to be said of each
// line again, where `line` says it once. A word and its numbers are no struct: `line` alone takes them together.
ghost use Rattle.std.specs.Prelude.{[], ◌∷◌, ◌+◌, ◌*◌, ◌≤◌, ◌<◌, length};
ghost use Rattle.job_report.specs.Lines as section;

// A lent array, and the place in it that the next text goes to. Each method puts its text there, and the place moves behind it.
#[derive(Drop)]
pub(crate) struct Text<'a> {
    pub(crate) out: &'a mut [u8],
    pub(crate) at: usize,
}

impl Text<'_> {
    // One byte.
    fn byte(&mut self, b: u8)
        requires { self.old.at < length self.old.out.now }
        ensures { section.TextPut (b ∷ []) self.old self.new }
    {
        self.out[self.at] = b;
        self.at += 1;
    }

    // Some bytes.
    fn bytes(&mut self, bytes: &[u8])
        requires { self.old.at + length bytes.now ≤ length self.old.out.now }
        ensures { section.TextPut bytes.now self.old self.new }
    {
        let end = self.at + bytes.len();
        self.out[self.at..end].copy_from_slice(bytes);
        self.at = end;
    }

    // A number after a space.
    fn number(&mut self, n: u64)
        requires { self.old.at + 21 ≤ length self.old.out.now }
        ensures put { section.TextPut (32 ∷ section.decimal n) self.old self.new }
        ensures upper_bound { self.new.at ≤ self.old.at + 21 }
    {
        let mut digits = [0u8; 20];
        let k = io::decimal(n, &mut digits);
        self.byte(b' ');
        self.bytes(&digits[..k]);
    }

    // Each number after a space.
    fn numbers(&mut self, list: &[u64])
        requires { self.old.at + 21 * length list.now ≤ length self.old.out.now }
        ensures put { section.TextPut (section.numbers list.now) self.old self.new }
        ensures upper_bound { self.new.at ≤ self.old.at + 21 * length list.now }
    {
        for n in list {
            self.number(*n);
        }
    }

    // A word, its numbers, and a line end.
    pub(crate) fn line(&mut self, word: &[u8], list: &[u64])
        requires { self.old.at + length word.now + 21 * length list.now + 1 ≤ length self.old.out.now }
        ensures put { section.TextPut (section.line word.now list.now) self.old self.new }
        ensures upper_bound { self.new.at ≤ self.old.at + length word.now + 21 * length list.now + 1 }
    {
        self.bytes(word);
        self.numbers(list);
        self.byte(b'\n');
    }
}
