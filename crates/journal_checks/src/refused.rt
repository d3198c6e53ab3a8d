// Journals that are refused, each with the fault print that it gets. The tests of every `show` of a journal go over them, each
// in a loop of its own. By a rule of the project no public function asks anything of its caller, but the one that prints; and
// one that took a `show` as a closure would have to ask that it may be called.
ghost use Rattle.std.specs.Prelude.{◌≡◌};
ghost use Rattle.journal_checks.specs.Refused.{is_fault_print};

use refusals::Refusal;
use report::Shown;

/// Journals with a line that is not due, and one whose line ends with a carriage return, which belongs to the value.
pub const LINES_NOT_DUE: [(&[u8], &[u8]); 9] = [
    (b"", b"fault=14\nline=1\n"),
    (b"\n", b"fault=14\nline=1\n"),
    (b"kills=0\n", b"fault=14\nline=1\n"),
    (b"commands 2\n", b"fault=14\nline=1\n"),
    (b"commands=2", b"fault=14\nline=1\n"),
    (b"commands=2\r\nkills=0", b"fault=15\nline=1\n"),
    (
        b"commands=2\nkills=0\ncards=1\nregister=sum\nmove=1\nstep=A1\n",
        b"fault=14\nline=6\n",
    ),
    (
        b"commands=1\nkills=0\ncards=1\nregister=sum\nmove=1\nstep=A1",
        b"fault=14\nline=6\n",
    ),
    (
        b"commands=1\nkills=0\ncards=1\nregister=sum\nmove=1\n\xff\n",
        b"fault=14\nline=6\n",
    ),
];

/// Journals with a value that is not allowed.
pub const VALUES_NOT_ALLOWED: [(&[u8], &[u8]); 13] = [
    (b"commands=0\n", b"fault=15\nline=1\n"),
    (b"commands=65\n", b"fault=15\nline=1\n"),
    (b"commands=01\n", b"fault=15\nline=1\n"),
    (b"commands=\n", b"fault=15\nline=1\n"),
    (
        b"commands=99999999999999999999999999\n",
        b"fault=15\nline=1\n",
    ),
    (b"commands=1\nkills=8\n", b"fault=15\nline=2\n"),
    (b"commands=1\nkills=0\ncards=0\n", b"fault=15\nline=3\n"),
    (
        b"commands=1\nkills=0\ncards=1\nregister=sums\n",
        b"fault=15\nline=4\n",
    ),
    (
        b"commands=1\nkills=0\ncards=1\nregister=sum\nmove=-0\n",
        b"fault=15\nline=5\n",
    ),
    (
        b"commands=1\nkills=0\ncards=1\nregister=sum\nmove=+1\n",
        b"fault=15\nline=5\n",
    ),
    (
        b"commands=1\nkills=0\ncards=1\nregister=sum\nmove=9001\n",
        b"fault=15\nline=5\n",
    ),
    (
        b"commands=1\nkills=0\ncards=1\nregister=sum\nmove=-9001\n",
        b"fault=15\nline=5\n",
    ),
    (
        b"commands=1\nkills=0\ncards=1\nregister=sum\nmove= 1\n",
        b"fault=15\nline=5\n",
    ),
];

/// Journals with a step that is not allowed.
pub const STEPS_NOT_ALLOWED: [(&[u8], &[u8]); 7] = [
    (
        b"commands=1\nkills=0\ncards=1\nregister=sum\nmove=1\nstep=S1\n",
        b"fault=15\nline=6\n",
    ),
    (
        b"commands=1\nkills=0\ncards=1\nregister=sum\nmove=1\nstep=a1\n",
        b"fault=15\nline=6\n",
    ),
    (
        b"commands=1\nkills=0\ncards=1\nregister=sum\nmove=1\nstep=\n",
        b"fault=15\nline=6\n",
    ),
    (
        b"commands=1\nkills=0\ncards=1\nregister=sum\nmove=1\nstep=A\n",
        b"fault=15\nline=6\n",
    ),
    (
        b"commands=1\nkills=0\ncards=1\nregister=sum\nmove=1\nstep=A0\n",
        b"fault=15\nline=6\n",
    ),
    (
        b"commands=1\nkills=0\ncards=1\nregister=sum\nmove=1\nstep=A65\n",
        b"fault=15\nline=6\n",
    ),
    (
        b"commands=1\nkills=0\ncards=1\nregister=sum\nmove=1\nstep=Q1\n",
        b"fault=15\nline=6\n",
    ),
];

/// Whether a fault was shown, and the buffer begins with this print of it.
pub fn is_fault_print(shown: Result<Shown, Refusal>, text: &[u8], print: &[u8]) -> bool
    ensures { result ≡ is_fault_print shown text.now print.now }
{
    shown == Ok(Shown::Fault(print.len())) && text.starts_with(print)
}
