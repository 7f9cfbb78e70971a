// Record places kept beside the stream: the pass that fills them, and the check of lent ones, which is that of the stream too.
#![tactic(auto)]

ghost use Rattle.std.specs.Prelude.{◌≡◌, true, ◌*◌, ◌≤◌, ◌<◌};
ghost use Rattle.streams.specs.Stream.{checked};
ghost use Rattle.streams.specs.declared.refusal.StreamKind.TheVariants.{Types};
ghost use Rattle.record_places.specs.RecordPlaces.{entries_for, lent_places, leaves, fill_pass};
ghost use Rattle.record_places.specs.Comparing.{holds_at, FourLead, BlockLeads, Begun, ComparedFor, settled_pass};

use streams::chains::{Four, stretch};
use streams::places::behind_noting;
use streams::refusal::{Refusal, StreamKind};
use streams::stream::{Stream, behind_records, header_of};

// The check of a stream, and of the places that were lent for it: the number of the first that is wrong.
#[derive(Clone, Copy, Debug, PartialEq, Eq)]
pub struct PlacedCheck {
    pub check: Result<Stream, Refusal>,
    pub places: Result<(), u32>,
}

// Where the records end, and what the lent places are where they do.
#[derive(Clone, Copy, Debug, PartialEq, Eq)]
pub struct Comparison {
    pub end: Option<usize>,
    pub places: Result<(), u32>,
}

// So many entries are known to be right, and the next is due at this place.
#[derive(Clone, Copy, Debug, PartialEq, Eq)]
pub struct Known {
    pub k: u32,
    pub at: usize,
}

#[tactic(auto, unfolding(crate::specs::RecordPlaces::entries_for))]
fn entries_for(n: u32) -> u32
    ensures { result ≡ entries_for n }
{
    n.div_ceil(64)
}

// The pass, in one walk over the records. A refused one leaves what it noted until then.
#[tactic(auto, using(crate::proofs::Pass::header_fits, crate::proofs::Pass::checked_by), unfolding(crate::specs::Comparing::settled_pass, crate::specs::RecordPlaces::pass_by))]
fn note_places(types: &[u8], places: &mut [u32]) -> Result<usize, Refusal>
    ensures { settled_pass places.new result ≡ fill_pass types.now places.old }
{
    let Stream { first, end, stop } = header_of(types).ok_or(Refusal::Header(StreamKind::Types))?;
    if behind_noting(&types[..stop], 56, end - first, 64, places) != Some(stop) {
        return Err(Refusal::Tiling(StreamKind::Types));
    }
    let needed = entries_for(end - first) as usize;
    if places.len() < needed {
        return Err(Refusal::WrongPlace(places.len() as u32));
    }
    Ok(needed)
}

// Fills the front of a buffer with the places of the type records 0, 64, 128 and on. Entries past these are unchanged; every refusal leaves zeros.
#[tactic(auto, unfolding(crate::specs::Comparing::settled_pass))]
pub fn fill_places(types: &[u8], places: &mut [u32]) -> Result<usize, Refusal>
    ensures { leaves places.new result ≡ fill_pass types.now places.old }
{
    let noted = note_places(types, places);
    if noted.is_err() {
        places.fill(0);
    }
    noted
}

// The bytes up to where the records of a stream stop, how many records there are, and the places that were lent for them.
#[derive(Clone, Copy)]
struct LentPlaces<'a> {
    records: &'a [u8],
    count: u32,
    places: &'a [u32],
}

impl<'a> LentPlaces<'a> {
    // Whether the entry that is due is there and has its place.
    #[tactic(auto, unfolding(crate::specs::Comparing::holds_at))]
    fn holds(&self, due: Known) -> bool
        ensures { result ≡ holds_at self.now.places.now due.k due.at }
    {
        self.places
            .get(due.k as usize)
            .is_some_and(|&at| at as usize == due.at)
    }

    // Whether each of four entries, so far apart, leads to the entry behind it: their records are walked side by side.
    fn four_lead(&self, k: usize, apart: usize) -> bool
        requires { (k < 0x2_0000_0000) × (apart ≤ 16) }
        ensures { result ≡ true → FourLead self.now.records.now self.now.places.now k apart }
    {
        let second = k + apart;
        let third = second + apart;
        let fourth = third + apart;
        if self.places.len() <= fourth + 1 || self.records.len() == 0 {
            return false;
        }
        let at = |k: usize| self.places[k] as usize;
        let from = Four {
            a: at(k),
            b: at(second),
            c: at(third),
            d: at(fourth),
        };
        let last = self.records.len() - 1;
        let goals = Four {
            a: last,
            b: last,
            c: last,
            d: last,
        };
        let t = stretch(self.records, from, goals, 64);
        t.n == 64
            && t.at.a == at(k + 1)
            && t.at.b == at(second + 1)
            && t.at.c == at(third + 1)
            && t.at.d == at(fourth + 1)
    }

    // Whether each entry of a block leads to the next: four times so many as they are apart.
    fn block_leads(&self, k: usize, apart: usize) -> bool
        requires { (k < 0x1_0000_0000) × (0 < apart) × (apart ≤ 16) }
        ensures { result ≡ true → BlockLeads self.now.records.now self.now.places.now k (4 * apart) }
    {
        for j in 0..apart {
            if !self.four_lead(k + j, apart) {
                return false;
            }
        }
        true
    }

    // The entries from a known one on, block by block as far as each leads to the next.
    fn by_blocks(&self, from: Known, apart: u32) -> Known
        requires { (0 < apart) × (apart ≤ 16) × Begun self.now.records.now self.now.count self.now.places.now from }
        ensures { Begun self.now.records.now self.now.count self.now.places.now result }
    {
        // Kept: `while`, since the walk may stop at any block and hands on where: a `for` with `step_by` would keep that beside its counter.
        let entries = entries_for(self.count);
        let mut known = from;
        while known.k + 4 * apart < entries {
            if !self.holds(known) || !self.block_leads(known.k as usize, apart as usize) {
                return known;
            }
            let k = known.k + 4 * apart;
            known = Known {
                k,
                at: self.places[k as usize] as usize,
            };
        }
        known
    }

    // The entries from a known one on, one by one. Behind the first that does not hold the records are only passed.
    fn one_by_one(&self, from: Known) -> Comparison
        requires { Begun self.now.records.now self.now.count self.now.places.now from }
        ensures { ComparedFor self.now.records.now self.now.count self.now.places.now result }
    {
        let mut at = from.at;
        for k in from.k..entries_for(self.count) {
            let left = self.count - k * 64;
            if !self.holds(Known { k, at }) {
                return Comparison {
                    end: behind_records(self.records, at, left),
                    places: Err(k),
                };
            }
            let Some(next) = behind_records(self.records, at, left.min(64)) else {
                return Comparison {
                    end: None,
                    places: Ok(()),
                };
            };
            at = next;
        }
        Comparison {
            end: Some(at),
            places: Ok(()),
        }
    }
}

fn refused(f: Refusal) -> PlacedCheck
    ensures { result ≡ (record { check = Err f; places = (Ok tt) }) }
{
    PlacedCheck {
        check: Err(f),
        places: Ok(()),
    }
}

// The check of the types and of the places lent for them, in one pass over the heads of the records: in large blocks, in small ones, then one by one.
#[tactic(auto, using(crate::proofs::Pass::header_fits, crate::proofs::Pass::checked_by), unfolding(crate::specs::RecordPlaces::places_by, crate::specs::RecordPlaces::places_of))]
pub fn check_placed(types: &[u8], places: &[u32]) -> PlacedCheck
    ensures { (result.check ≡ checked Types types.now) × (result.places ≡ lent_places types.now places.now) }
{
    let Some(stream) = header_of(types) else {
        return refused(Refusal::Header(StreamKind::Types));
    };
    let lent = LentPlaces {
        records: &types[..stream.stop],
        count: stream.end - stream.first,
        places,
    };
    let far = lent.by_blocks(Known { k: 0, at: 56 }, 16);
    let near = lent.by_blocks(far, 1);
    let c = lent.one_by_one(near);
    if c.end != Some(stream.stop) {
        return refused(Refusal::Tiling(StreamKind::Types));
    }
    PlacedCheck {
        check: Ok(stream),
        places: c.places,
    }
}
