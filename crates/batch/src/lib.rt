// Many texts in one call: the texts of types or of ids, one after another in one buffer, and for each of them what its call tells and where its text lies.
#![tactic(auto)]

ghost use Rattle.std.specs.Prelude.{◌≡◌, ◌∷◌, [], ◌≤◌, length};
ghost use Rattle.rules.specs.Places.{near_in};
ghost use Rattle.checked_calls.specs.Answers.{of_answer, settled, laid};
ghost use Rattle.batch.specs.Batch.{entry, leaves_off, batched, laid_batch, GoesOn, texts_over, batch_over, Laying};

use checked_calls::calls::{id_text, type_text};
use codeview::index::{IdIndex, TypeIndex};
use codeview::lent::Lent;
use streams::refusal::{Refusal, StreamKind};
use wire::bytes::clear;

// How many indexes are done, and how many bytes their texts have.
#[derive(Clone, Copy)]
pub struct Laid {
    pub done: usize,
    pub bytes: usize,
}

// The text of a type or of an id.
fn text_of(
    which: StreamKind,
    lent: &Lent,
    out: &mut [u8],
    flags: u32,
    size: u32,
    index: u32,
) -> Result<usize, Refusal>
    ensures { settled out.new result ≡ laid out.old (texts_over which lent.now.types.now lent.now.ids.now (near_in lent.now) flags size index (length out.old)) }
{
    match which {
        StreamKind::Types => type_text(lent, out, flags, size, TypeIndex(index)),
        StreamKind::Ids => id_text(lent, out, flags, size, IdIndex(index)),
    }
}

// Whether there is too little room behind the texts that stand there.
fn leaves_off(at: usize, a: Result<usize, Refusal>) -> bool
    ensures { result ≡ leaves_off at (of_answer a) }
{
    match a {
        Ok(n) => false,
        Err(f) => {
            if at == 0 {
                return false;
            }
            f.number() == 15
        }
    }
}

fn put_four(to: &mut [u64], number: u64, detail: u64, at: u64, len: u64)
    requires { length to.old ≡ 4 }
    ensures { to.new ≡ number ∷ detail ∷ at ∷ len ∷ [] }
{
    to[0] = number;
    to[1] = detail;
    to[2] = at;
    to[3] = len;
}

// The four numbers of an answer: how long its text is.
fn note(to: &mut [u64], at: usize, a: Result<usize, Refusal>) -> usize
    requires { length to.old ≡ 4 }
    ensures { (result ≡ (of_answer a).value) × (to.new ≡ entry at (of_answer a)) }
{
    match a {
        Ok(n) => {
            put_four(to, 0, 0, at as u64, n as u64);
            n
        }
        Err(f) => {
            put_four(to, f.number() as u64, f.detail() as u64, at as u64, 0);
            0
        }
    }
}

// The texts, up to one that does not fit behind the others.
fn lay_texts(
    which: StreamKind,
    lent: &Lent,
    out: &mut [u8],
    flags: u32,
    size: u32,
    indexes: &[u32],
    answers: &mut [u64],
) -> Laid
    ensures { Laying out.old answers.old (batch_over which lent.now.types.now lent.now.ids.now (near_in lent.now) flags size (length out.old) (length answers.old) indexes.now) out.new answers.new result.bytes result.done }
{
    let n = indexes.len().min(answers.len() / 4);
    let mut done: usize = 0;
    let mut bytes: usize = 0;
    while done < n {
        let text = &mut out[bytes..];
        let a = text_of(which, lent, text, flags, size, indexes[done]);
        if leaves_off(bytes, a) {
            return Laid { done, bytes };
        }
        let at = 4 * done;
        bytes += note(&mut answers[at..at + 4], bytes, a);
        done += 1;
    }
    Laid { done, bytes }
}

// The texts of types or of ids over what was kept of the checks of their streams: how many of the indexes are done. Four numbers are noted for each.
pub fn texts_over(
    which: StreamKind,
    lent: &Lent,
    out: &mut [u8],
    flags: u32,
    size: u32,
    indexes: &[u32],
    answers: &mut [u64],
) -> usize
    ensures result_after { batched out.new answers.new result ≡ laid_batch out.old answers.old (batch_over which lent.now.types.now lent.now.ids.now (near_in lent.now) flags size (length out.old) (length answers.old) indexes.now) }
    ensures goes_on { GoesOn (length answers.old) indexes.now (batch_over which lent.now.types.now lent.now.ids.now (near_in lent.now) flags size (length out.old) (length answers.old) indexes.now) }
{
    let laid = lay_texts(which, lent, out, flags, size, indexes, answers);
    let bytes = laid.bytes;
    let rest = &mut out[bytes..];
    clear(rest);
    laid.done
}
