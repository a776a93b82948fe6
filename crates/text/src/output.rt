// A lent buffer with the index at which the next text begins (Routines 17).
ghost use Rattle.std.specs.Prelude.{◌+◌, length};
ghost use Rattle.text.specs.Text.{decimal, signed_decimal, line};
ghost use Rattle.text.specs.Output.{PutsNext};

#[derive(Drop)]
pub struct Output<'a> {
    pub bytes: &'a mut [u8],
    pub at: usize,
}

impl Output<'_> {
    // Each puts what the function of its name puts, and goes behind it.
    pub fn put(&mut self, word: &[u8])
        ensures { PutsNext (length word.now) word.now self.old self.new }
    {
        let bytes = &mut *self.bytes;
        self.at = crate::put(bytes, self.at, word);
    }

    pub fn put_decimal(&mut self, n: u64)
        ensures { PutsNext 20 (decimal n) self.old self.new }
    {
        let bytes = &mut *self.bytes;
        self.at = crate::put_decimal(bytes, self.at, n);
    }

    pub fn put_signed(&mut self, x: i64)
        ensures { PutsNext 21 (signed_decimal x) self.old self.new }
    {
        let bytes = &mut *self.bytes;
        self.at = crate::put_signed(bytes, self.at, x);
    }

    pub fn put_line(&mut self, first: &[u8], a: u64, second: &[u8], b: u64)
        ensures { PutsNext (length first.now + 20 + length second.now + 20 + 1) (line first.now a second.now b) self.old self.new }
    {
        let bytes = &mut *self.bytes;
        self.at = crate::put_line(bytes, self.at, first, a, second, b);
    }
}
