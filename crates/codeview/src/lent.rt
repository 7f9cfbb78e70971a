// The two streams that are lent to a call, what their checks found, and the places.
ghost use Rattle.std.specs.Prelude.{◌≡◌};
ghost use Rattle.codeview.specs.Read.{read_id_in};

use crate::index::IdIndex;
use crate::record::IdData;
use streams::refusal::Refusal;

#[derive(Clone, Copy)]
pub struct Lent<'a> {
    pub types: &'a [u8],
    pub ids: &'a [u8],
    pub bounds: &'a [u32],
    pub places: &'a [u32],
}

impl<'a> Lent<'a> {
    // What an id index stands for.
    pub fn id_at(&self, index: IdIndex) -> Result<IdData, Refusal>
        ensures { result ≡ read_id_in self.now.ids.now self.now.bounds.now self.now.places.now index.0 }
    {
        crate::ids::id_at(self.ids, self.bounds, self.places, index)
    }
}
