// The indexes that are open, and the one opening of an index: what is tested, noted and counted then. An open index and the way it came are packed in one
// number. One list of 96 is lent to all writers: the open ones lie from `left` to its end, the newest first. An opening is written right below them, and
// what is called is lent the list with the new `left`: nothing is copied, and nothing is taken back when a writer ends.
ghost use Rattle.std.specs.Prelude.{◌≡◌, ◌%◌, ◌≤◌, length, eqb};
ghost use Rattle.std.specs.List.{list_any};
ghost use Rattle.context.specs.Opening.{noted, Opens};

use codeview::index::TypeIndex;
use pen::Pen;
use streams::refusal::Refusal;

// The ways in which an index is opened: as the type of a function, by itself, as a pointer's target, as the target of a pointer's modifier, as any other
// modifier's target, as a method's argument list.
#[derive(Clone, Copy, PartialEq, Eq)]
pub enum Way {
    Function,
    Itself,
    Target,
    TargetOfModifier,
    Modified,
    List,
}

// Whether some key is that of an index. All are asked, and the answers joined without a branch, so that some are asked at once.
fn has(keys: &[u64], index: u32) -> bool
    ensures { result ≡ list_any (λ key. eqb (key % 4_294_967_296) index) keys.now }
{
    keys.iter().fold(false, |found, &key| {
        found | (key % 4_294_967_296 == u64::from(index))
    })
}

// An open index with its way, packed in one number.
fn noted(way: Way, index: u32) -> u64
    ensures { result ≡ noted way index }
{
    way as u64 * 4_294_967_296 + u64::from(index)
}

// Opens an index in a list, where those from `left` on are open: it is written right below them, and the pen counts it. Or nothing is opened and the
// pen has stopped: with 12 where the index is open, with 13 where the list has no room for one more.
pub fn open_index(p: Pen, seen: &mut [u64], left: usize, way: Way, index: TypeIndex) -> Pen
    requires { left ≤ length seen.old }
    ensures { Opens p seen.old left way index.0 seen.new result }
{
    if pen::is_idle(p) {
        return p;
    }
    if has(&seen[left..], index.0) {
        return pen::stopped(p, Refusal::CircularTypeDefinition(index.0));
    }
    if left == 0 {
        return pen::stopped(p, Refusal::TooManyOpen(index.0));
    }
    seen[left - 1] = noted(way, index.0);
    pen::opened(p)
}
