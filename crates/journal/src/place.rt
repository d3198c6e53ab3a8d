// Where a reader is in its journal, and a guard that puts it back.
ghost use Rattle.std.specs.Prelude.{◌≡◌};

// The next line's first byte, and its number from 1.
#[derive(Clone, Copy, Debug, PartialEq, Eq)]
pub struct Place {
    pub at: usize,
    pub line: u32,
}

// Puts a place back where it was when the guard is dropped: on every way out by which the line is refused.
pub(crate) struct Restore<'p> {
    pub(crate) place: &'p mut Place,
    pub(crate) saved: Place,
}

impl Restore<'_> {
    // The line was accepted: the place stays where it is now.
    pub(crate) fn accept(self)
        ensures { self.exit.0.now ≡ self.entry.place.now }
    {
        let Restore { place: _, saved: _ } = self;
    }
}

impl Drop for Restore<'_> {
    fn drop(self)
        ensures { self.exit.0.now ≡ self.entry.saved }
    {
        *self.place = self.saved;
        let Restore { place: _, saved: _ } = self;
    }
}
