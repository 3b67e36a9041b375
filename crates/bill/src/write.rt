// A writer over a lent buffer, and what the lines that it writes show.
ghost use Rattle.std.specs.Prelude.{◌≡◌, [], ◌∷◌, decimal};
ghost use Rattle.bill.specs.declared.write.Value.TheVariants.{Number};
ghost use Rattle.bill.specs.PrintText.{line};
ghost use Rattle.bill.specs.PrintValues.{shown};
ghost use Rattle.bill.specs.PrintWrote.{HasRoom, Writes};

// What a line shows behind its key: text as it stands, or a number in decimal.
#[derive(Clone, Copy)]
pub(crate) enum Value<'a> {
    Text(&'a [u8]),
    Number(u64),
    Signed(i64),
}

// A number of 32 bits shows as any number does.
impl<'a> From<u32> for Value<'a> {
    fn from(number: u32) -> Value<'a>
        ensures { result ≡ Number number }
    {
        Value::Number(u64::from(number))
    }
}

// The lent buffer, and the place where writing goes on.
#[derive(Drop)]
pub(crate) struct Writer<'a> {
    buffer: &'a mut [u8],
    at: usize,
}

impl<'a> Writer<'a> {
    // A writer that begins at the buffer's start.
    pub(crate) fn new(buffer: &'a mut [u8]) -> Writer<'a>
        ensures start { result.at ≡ 0 }
        ensures untouched { result.buffer.now ≡ buffer.old }
        ensures named { result.buffer.ghost_name ≡ buffer.entry.ghost_name }
    {
        Writer { buffer, at: 0 }
    }

    // How many bytes are written.
    pub(crate) fn count(&self) -> usize
        ensures { result ≡ self.now.at }
    {
        self.at
    }

    // Writes one byte.
    fn byte(&mut self, byte: u8)
        requires { HasRoom self.old (byte ∷ []) }
        ensures { Writes self.old (byte ∷ []) self.new }
    {
        self.buffer[self.at] = byte;
        self.at += 1;
    }

    // Writes the bytes as they stand.
    fn bytes(&mut self, bytes: &[u8])
        requires { HasRoom self.old bytes.now }
        ensures { Writes self.old bytes.now self.new }
    {
        let end = self.at + bytes.len();
        self.buffer[self.at..end].copy_from_slice(bytes);
        self.at = end;
    }

    // Writes a number in decimal, without leading zeros.
    // By hand: std's writers promise what they wrote only where they answer Ok, and a print into 512 bytes can't fail.
    fn decimal(&mut self, number: u64)
        requires { HasRoom self.old (decimal number) }
        ensures { Writes self.old (decimal number) self.new }
    {
        if number >= 10 {
            self.decimal(number / 10);
        }
        self.byte(b'0' + (number % 10) as u8);
    }

    // Writes what a line shows.
    fn value(&mut self, value: Value<'_>)
        requires { HasRoom self.old (shown value) }
        ensures { Writes self.old (shown value.entry) self.new }
    {
        match value {
            Value::Text(text) => self.bytes(text),
            Value::Number(number) => self.decimal(number),
            Value::Signed(number) => {
                if number < 0 {
                    self.byte(b'-');
                }
                self.decimal(number.unsigned_abs());
            }
        }
    }

    // Writes a line.
    pub(crate) fn line(&mut self, key: &[u8], value: Value<'_>)
        requires { HasRoom self.old (line key.now (shown value)) }
        ensures { Writes self.old (line key.now (shown value.entry)) self.new }
    {
        self.bytes(key);
        self.byte(b'=');
        self.value(value);
        self.byte(b'\n');
    }
}
