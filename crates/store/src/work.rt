// The buffer that a call works in, which is lent to it.
ghost use Rattle.std.specs.Prelude.{◌≡◌, length, replicate};

// Lent bytes; whoever holds them gives them back as zeros, on every way out.
pub struct Work<'a> {
    pub bytes: &'a mut [u8],
}

impl Drop for Work<'_> {
    fn drop(self)
        ensures { self.exit.0.now ≡ replicate (length self.entry.bytes.now) 0 }
    {
        self.bytes.fill(0);
        let Work { bytes: _ } = self;
    }
}
