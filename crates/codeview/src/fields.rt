// The fields of a record, and the parts that records share: numbers, names, lists and bits.
ghost use Rattle.std.specs.Prelude.{◌≡◌, ◌+◌, ◌≤◌, ◌<◌, ◌^◌, if◌then◌else◌, IfOk, length, leb};
ghost use Rattle.wire.specs.Field.{number};
ghost use Rattle.wire.specs.Leaf.{width_of, leaf};
ghost use Rattle.streams.specs.Stream.{part};
ghost use Rattle.streams.specs.declared.refusal.Refusal.TheVariants.{Malformed};
ghost use Rattle.codeview.specs.Record.{bit, placed, names, entries};
ghost use Rattle.codeview.specs.Read.{absent_refusal};

use crate::record::Entries;
use streams::refusal::Refusal;
use streams::stream::{Absent, RecordAt};
use wire::field::Little;
use wire::leaf::{Leaf, leaf_at};
use wire::name::{Name, name_at};

// Whether a bit of a number is set, counted from 0.
#[tactic(auto, unfolding(crate::specs::Record::bit))]
pub fn has_bit(bits: u32, k: u32) -> bool
    requires { k < 32 }
    ensures { result ≡ bit k bits }
{
    bits >> k & 1 == 1
}

// Why no record of an index is read.
pub fn refusal_of(absent: Absent, index: u32) -> Refusal
    ensures { result ≡ absent_refusal absent index }
{
    match absent {
        Absent::Missing => Refusal::Missing(index),
        Absent::CrossModule => Refusal::CrossModule(index),
    }
}

// The bytes of a record's fields, the place where they stand in the stream, and the record's index. Names and lists are answered as places of the
// stream; what is cut is refused by the index.
#[derive(Clone, Copy)]
pub struct Fields<'a> {
    pub bytes: &'a [u8],
    pub base: usize,
    pub index: u32,
    pub ghost inside: { base + length bytes.now < 2 ^ 63 },
}

impl<'a> Fields<'a> {
    // The fields of a record that was found in a stream.
    #[tactic(auto, unfolding(streams::specs::Stream::part))]
    pub fn of(s: &'a [u8], record: RecordAt, index: u32) -> Fields<'a>
        requires { (record.start ≤ record.end) × (record.end ≤ length s.now) }
        ensures bytes { result.bytes.now ≡ part s.now record.start record.end }
        ensures base { result.base ≡ record.start }
        ensures index { result.index ≡ index }
    {
        Fields {
            bytes: &s[record.start..record.end],
            base: record.start,
            index,
        }
    }

    pub fn malformed(&self) -> Refusal
        ensures { result ≡ Malformed self.now.index }
    {
        Refusal::Malformed(self.index)
    }

    // The fixed part of a record is tested once, then read.
    pub fn fixed(&self, size: usize) -> Result<(), Refusal>
        ensures { result ≡ (if leb size (length self.now.bytes.now) then Ok tt else Err (Malformed self.now.index)) }
    {
        if self.bytes.len() < size {
            return Err(self.malformed());
        }
        Ok(())
    }

    // A number of the fixed part.
    pub fn number<T: Little>(&self, at: usize) -> T
        requires { at + T.WIDTH ≤ length self.now.bytes.now }
        ensures { result ≡ T.of (number T.WIDTH self.now.bytes.now at) }
    {
        T::read(self.bytes, at)
    }

    #[tactic(auto, using(crate::proofs::Laws::by_leaf))]
    #[inline(always)]
    pub fn leaf_at(&self, at: usize, signed: bool) -> Result<Leaf, Refusal>
        ensures { result ≡ leaf (width_of signed) self.now.bytes.now at (λ v w n. Ok (record { value = v; width = w; next = n })) (Err (Malformed self.now.index)) }
    {
        leaf_at(self.bytes, at, signed).ok_or(self.malformed())
    }

    #[tactic(auto, using(crate::proofs::Laws::by_name, crate::proofs::Laws::name_inside))]
    #[inline(always)]
    pub fn name_at(&self, at: usize) -> Result<Name, Refusal>
        ensures read { result ≡ placed self.now.base self.now.bytes.now at Ok (Err (Malformed self.now.index)) }
        ensures inside { IfOk result (λ n. at + n.len < length self.now.bytes.now) }
    {
        let name = name_at(self.bytes, at).ok_or(self.malformed())?;
        Ok(Name {
            start: self.base + at,
            len: name.len,
        })
    }

    // A name, and the unique name behind it where the properties say so.
    #[tactic(auto, using(crate::proofs::Laws::by_name), unfolding(crate::specs::Record::names))]
    #[inline(always)]
    pub fn names_at(&self, at: usize, properties: u16) -> Result<(Name, Option<Name>), Refusal>
        ensures { result ≡ names self.now.base properties self.now.bytes.now at (λ n u. Ok (n, u)) (Err (Malformed self.now.index)) }
    {
        let name = self.name_at(at)?;
        if !has_bit(u32::from(properties), 9) {
            return Ok((name, None));
        }
        let unique = self.name_at(at + name.len + 1)?;
        Ok((name, Some(unique)))
    }

    // The list of a record that is a count and so many u32.
    #[tactic(auto, unfolding(crate::specs::Record::entries, wire::specs::Field::field))]
    pub fn entries(&self) -> Result<Entries, Refusal>
        ensures { result ≡ entries self.now.base self.now.bytes.now Ok (Err (Malformed self.now.index)) }
    {
        self.fixed(4)?;
        let count: u32 = self.number(0);
        self.fixed(4 + 4 * (count as usize))?;
        Ok(Entries {
            start: self.base + 4,
            count,
        })
    }
}
