// A guard around secret bytes: whatever way a call goes, they are zero when it is left.
ghost use Rattle.std.specs.Prelude.{◌≡◌, length, replicate};

pub struct Guard<'a>(pub &'a mut [u8]);

impl Drop for Guard<'_> {
    fn drop(self)
        ensures { self.exit.0.now ≡ replicate (length self.entry.0.now) 0 }
    {
        self.0.fill(0);
        let Guard(_) = self;
    }
}
