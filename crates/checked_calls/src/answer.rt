// What a text call answers, read off the pen that its walk leaves.
ghost use Rattle.std.specs.Prelude.{◌≡◌};
ghost use Rattle.pen.specs.Page.{read_pen};
ghost use Rattle.checked_calls.specs.Answers.{given, started, answered_by, settled};

use pen::{Pen, Stop};
use streams::refusal::Refusal;
use wire::bytes::clear;

// The pen before the first byte.
pub fn start(limit: usize) -> Pen
    ensures { result ≡ started limit }
{
    Pen {
        at: 0,
        tally: 0,
        limit,
        stop: 0,
        detail: 0,
    }
}

// The answer by the pen at the end. Outside every type a missing record is refusal 8.
pub fn answer_of(p: Pen) -> Result<usize, Refusal>
    ensures { result ≡ answered_by (read_pen p).stop p.at }
{
    match pen::stop_of(p) {
        Stop::No => Ok(p.at),
        Stop::Missing(index) => Err(Refusal::Missing(index)),
        Stop::Refused(f) => Err(f),
    }
}

// The same answer; a refused call fills the buffer with zeros.
#[tactic(auto, unfolding(crate::specs::Answers::settled, crate::specs::Answers::of_answer))]
pub fn settle(out: &mut [u8], a: Result<usize, Refusal>) -> Result<usize, Refusal>
    ensures { given out.new result ≡ settled out.old a }
{
    if a.is_err() {
        clear(out);
    }
    a
}
