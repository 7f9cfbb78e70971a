// What a measure answers, read off the pen that its walk leaves.
ghost use Rattle.std.specs.Prelude.{◌≡◌};
ghost use Rattle.pen.specs.Page.{read_pen};
ghost use Rattle.measures.specs.Measures.{measured_by};

use pen::{Pen, Stop};
use streams::refusal::Refusal;

// How many bytes a text has, and how many indexes are opened for it.
#[derive(Clone, Copy)]
pub struct Extent {
    pub length: usize,
    pub opened: u64,
}

// The answer by the pen at the end. Outside every type a missing record is refusal 8.
pub fn measure_of(p: Pen) -> Result<Extent, Refusal>
    ensures { result ≡ measured_by (read_pen p).stop p.at (read_pen p).opened }
{
    match pen::stop_of(p) {
        Stop::No => Ok(Extent {
            length: p.at,
            opened: pen::openings(p),
        }),
        Stop::Missing(index) => Err(Refusal::Missing(index)),
        Stop::Refused(f) => Err(f),
    }
}
