// A text is written into a lent buffer, one part after the other. What does not fit is left out, and the length is that of the whole text.
ghost use Rattle.std.specs.Prelude.{◌≡◌, ◌++◌};
ghost use Rattle.lines.specs.Text.{letters, decimal, Written};
ghost use Rattle.lines.specs.Text as rule;
ghost use Rattle.lines.specs.Extended.{extended};

// This is a text as far as it is written: the buffer, and the length of the text, which may be more than the buffer holds.
#[derive(Drop)]
pub struct Text<'a> {
    out: &'a mut [u8],
    at: usize,
}

impl<'a> Text<'a> {
    // Begins a text in a buffer.
    pub fn new(out: &'a mut [u8]) -> Text<'a>
        ensures same { result.out.ghost_name ≡ out.entry.ghost_name }
        ensures now { result.out.now ≡ out.old }
        ensures at { result.at ≡ 0 }
    {
        Text { out, at: 0 }
    }

    // Gives the length of the text.
    pub fn length(&self) -> usize
        ensures { result ≡ self.now.at }
    {
        self.at
    }

    // Writes letters, as far as the buffer has room. They are written in a loop: the line of an event has a dozen parts, most of them of one letter, and the
    // library's `copy_from_slice` calls the C library for each.
    pub fn put(&mut self, letters: &[u8])
        ensures { self.new ≡ extended self.old letters.now }
    {
        let from = self.at.min(self.out.len());
        let n = letters.len().min(self.out.len() - from);
        octets::write(self.out, from, &letters[..n]);
        self.at = self.at.saturating_add(letters.len());
    }

    // Writes a number, in as few digits as hold it.
    // The digits come from `io`, since `write!` promises nothing of what it has written where it gives an `Err`, and not that it gives none.
    pub fn number(&mut self, n: u64)
        ensures { self.new ≡ extended self.old (decimal n) }
    {
        let mut digits = [0u8; 20];
        let k = io::decimal(n, &mut digits);
        self.put(&digits[..k]);
    }

    // Writes a number after a space.
    pub fn field(&mut self, n: u64)
        ensures { self.new ≡ extended self.old (rule.field (decimal n)) }
    {
        self.put(b" ");
        self.number(n);
    }

    // Writes a word, a number and the end of the line.
    pub fn numbered(&mut self, word: &[u8], n: u64)
        ensures { self.new ≡ extended self.old (word.now ++ decimal n ++ letters "\n") }
    {
        self.put(word);
        self.number(n);
        self.put(b"\n");
    }
}

// Writes one line alone. Such a line has a function of its own that calls this, since the text is what its contract promises.
pub fn whole(out: &mut [u8], line: &[u8]) -> usize
    ensures { Written out.old 0 line.now out.new result }
{
    let mut text = Text::new(out);
    text.put(line);
    text.length()
}
