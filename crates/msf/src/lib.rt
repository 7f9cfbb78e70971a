// The container of a .pdb (LLVM, "The MSF File Format"): the bytes of one stream of a file, or what is wrong with the file.
#![tactic(auto)]

ghost use Rattle.std.specs.Prelude.{◌≡◌, ◌+◌, ◌^◌, ◌≤◌, ◌<◌, length, Ok, IfOk};
ghost use Rattle.msf.specs.Damage.{◌⨾◌};
ghost use Rattle.msf.specs.Superblock.{superblock_of};
ghost use Rattle.msf.specs.Directory.{directory_checked};
ghost use Rattle.msf.specs.Contents.{bytes_from, stream_bytes, checked, stream_of, in_front, given, laid};
ghost use Rattle.msf.specs.Inner.{Listed};

mod container;
pub mod damage;
mod directory;
mod superblock;

use container::Container;
use damage::Damage;
use superblock::blocks_for;
use wire::bytes::{clear, copy};

impl Container<'_> {
    // The bytes of `count` blocks, listed from a number of the directory on, of a stream of so many bytes.
    #[tactic(auto, using(crate::proofs::ContentsLaws::listed_within, crate::proofs::ContentsLaws::all_copied))]
    fn copy_blocks(&self, first: usize, count: usize, size: usize, out: &mut [u8])
        requires listed { Listed self.now.file.now self.now.superblock first count }
        requires few { first + count < 2 ^ 64 }
        requires fits { size ≤ length out.old }
        ensures { out.new ≡ in_front (bytes_from self.now.file.now self.now.superblock count first size) out.old }
    {
        let block = self.superblock.size as usize;
        let mut at = 0;
        for j in first..first + count {
            let n = block.min(size - at);
            let start = self.number_at(j) as usize * block;
            copy(&mut out[at..at + n], &self.file[start..start + n]);
            at += n;
        }
    }

    // The bytes of a stream, where every test is good, in front of the buffer; how many there are.
    #[tactic(auto, using(crate::proofs::ContentsLaws::ready, crate::proofs::ContentsLaws::bytes_length, crate::proofs::ContentsLaws::enough), unfolding(crate::specs::Contents::stream_bytes))]
    fn copy_stream(&self, number: u32, out: &mut [u8]) -> usize
        requires { directory_checked self.now.file.now self.now.superblock number (length out.old) ≡ Ok tt }
        ensures bytes { out.new ≡ in_front (stream_bytes self.now.file.now self.now.superblock number) out.old }
        ensures len { result ≡ length (stream_bytes self.now.file.now self.now.superblock number) }
    {
        let first = 1 + self.streams() as usize + self.listed(number);
        let size = self.size_of(number);
        let count = blocks_for(self.superblock.size, size);
        self.copy_blocks(first, count as usize, size as usize, out);
        size as usize
    }
}

// A container that passes every test, for a stream and the room that there is for it.
#[tactic(auto, unfolding(crate::specs::Contents::checked))]
fn checked<'a>(file: &'a [u8], number: u32, room: usize) -> Result<Container<'a>, Damage>
    ensures checked { (result ⨾ Ok tt) ≡ checked file.now (superblock_of file.now) number room }
    ensures ok { IfOk result (λ c. (c.file.now ≡ file.now) × (c.superblock ≡ superblock_of file.now)) }
{
    let container = Container::open(file)?;
    container.check_directory(number, room)?;
    Ok(container)
}

// The stream of a number: its bytes in front of the buffer and the rest of the buffer as it was, or zeros in all of it.
#[tactic(auto, using(crate::proofs::ContentsLaws::directory_good), unfolding(crate::specs::Contents::stream_of, crate::specs::Contents::laid))]
pub fn read_stream(file: &[u8], number: u32, out: &mut [u8]) -> Result<usize, Damage>
    ensures { given out.new result ≡ laid out.old (stream_of file.now number (length out.old)) }
{
    match checked(file, number, out.len()) {
        Ok(container) => Ok(container.copy_stream(number, out)),
        Err(damage) => {
            clear(out);
            Err(damage)
        }
    }
}
