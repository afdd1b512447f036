// What takes the bytes of a squeezed list, one run behind the other: an output, or their length alone.
ghost use Rattle.std.specs.Prelude.{◌≡◌, List, [], ℕ, ◌+◌, ◌≤◌, length, ⊤};
ghost use Rattle.records.specs.Write.{put_at};
ghost use Rattle.squeeze.specs.inner.Target.{Took, Joins};

pub(crate) trait Target {
    // The place behind the bytes that were taken.
    ghost end: { Self → ℕ };

    // How many bytes there can be.
    ghost most: { Self → ℕ };

    // What became of a target that took some bytes, besides.
    ghost Wrote: { Self → List ℕ → Self → Type 0 };

    fn put(&mut self, bytes: &[u8])
        requires { end self.old + length bytes.now ≤ most self.old }
        ensures { Took end most Wrote self.old bytes.now self.new };

    // The same for a run whose length is not told by the code around the call.
    fn put_run(&mut self, bytes: &[u8])
        requires { end self.old + length bytes.now ≤ most self.old }
        ensures { Took end most Wrote self.old bytes.now self.new };

    ghost none: { (s : Self) → Wrote s [] s };

    ghost joins: { Joins end most Wrote };
}

#[derive(Clone, Copy)]
pub(crate) struct Length {
    pub(crate) bytes: usize,
}

impl Target for Length {
    ghost use Rattle.std.below.core.specs.declared.int.usize.TheConstants.{MAX};

    ghost end = { λ s. s.bytes };

    ghost most = { λ _. MAX };

    ghost Wrote = { λ _ _ _. ⊤ };

    fn put(&mut self, bytes: &[u8]) {
        self.bytes += bytes.len();
    }

    fn put_run(&mut self, bytes: &[u8]) {
        self.bytes += bytes.len();
    }

    ghost none = { λ _. tt };

    ghost joins = { λ _ _ _ _ _ _ _ _. tt };
}

// Copies a run of bytes to a place, one by one: a method of the library would call `memmove`, which the C library needs for nothing else.
fn copy(out: &mut [u8], place: usize, bytes: &[u8])
    requires { place + length bytes.now ≤ length out.old }
    ensures { out.new ≡ put_at place bytes.now out.old }
{
    for i in 0..bytes.len() {
        out[place + i] = bytes[i];
    }
}

#[derive(Drop)]
pub(crate) struct Output<'a> {
    pub(crate) out: &'a mut [u8],
    pub(crate) end: usize,
}

impl Target for Output<'_> {
    ghost use Rattle.squeeze.specs.inner.Filled.{end_of, most_of, Filled, filled_none, filled_then};

    ghost end = { end_of };

    ghost most = { most_of };

    ghost Wrote = { Filled };

    fn put(&mut self, bytes: &[u8]) {
        let end = self.end + bytes.len();
        self.out[self.end..end].copy_from_slice(bytes);
        self.end = end;
    }

    fn put_run(&mut self, bytes: &[u8]) {
        copy(&mut *self.out, self.end, bytes);
        self.end += bytes.len();
    }

    ghost none = { filled_none };

    ghost joins = { filled_then };
}
