// The lines of one role, which are of its last card.
ghost use Rattle.std.specs.Prelude.{◌≡◌, ◌+◌, ◌^◌, ◌<◌, ◌≤◌, length, IfSome, MatchOption};
ghost use Rattle.std.specs.Int.Signed.{mag};
ghost use Rattle.registers.specs.Numbers.{code_of};
ghost use Rattle.report.specs.Writer.{WrittenBy};
ghost use Rattle.hub_report.specs.ReportText.{mean_of, role_text};

use registers::{Register, mean_of};
use report::Writer;

// The keys of a role's lines.
#[derive(Clone, Copy)]
pub(crate) struct Keys {
    pub number: &'static [u8],
    pub version: &'static [u8],
    pub register: &'static [u8],
}

// The last card of a role, as it was seen, and the registers of the role. Number 0 is no card, as in a look, and no Option: a
// report prints the number as it stands, 0 too.
#[derive(Drop)]
pub(crate) struct LastCard<'r, R> {
    pub number: usize,
    pub version: u32,
    pub registers: &'r [R],
    ghost within: { number ≤ length registers.now },
}

impl<R: Register> LastCard<'_, R> {
    ghost use Rattle.hub_report.specs.LastCard.{figures_of};

    // The card's register.
    fn register(&self) -> Option<&R>
        ensures { MatchOption result (self.now.number ≡ 0) (λ register. (0 < self.now.number) × (R.figures register.now ≡ figures_of R.figures self.now)) }
    {
        self.registers.get(self.number.checked_sub(1)?)
    }

    // The mean of the moves that the card has taken.
    pub(crate) fn mean(&self) -> Option<i64>
        ensures fits { IfSome result (λ z. mag z < 2 ^ 63) }
        ensures value { result ≡ mean_of (code_of R.kind) (figures_of R.figures self.now) self.now.version }
    {
        mean_of(R::kind(), self.register()?, self.version)
    }

    // All lines of the role, each if it fits. The hint shows the keys to LLVM as constants (see `lines.rt` of crate report).
    #[inline(always)]
    pub(crate) fn write(&self, keys: Keys, writer: &mut Writer<'_>)
        ensures short { length (role_text keys.number.now keys.version.now keys.register.now self.now.number self.now.version (figures_of R.figures self.now)) ≤ length keys.number.now + length keys.version.now + length keys.register.now + 21550 }
        ensures writes { WrittenBy (role_text keys.number.now keys.version.now keys.register.now self.now.number self.now.version (figures_of R.figures self.now)) writer.old writer.new }
    {
        // Read here, both are known to fit their types.
        let LastCard {
            number,
            version,
            ..
        } = *self;
        writer.put_number_line(keys.number, number);
        writer.put_number_line(keys.version, version);
        match self.register() {
            Some(register) => writer.put_figures_line(keys.register, register),
            None => writer.put_line(keys.register, b"none"),
        }
    }
}
