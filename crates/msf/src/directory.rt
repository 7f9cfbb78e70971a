// The stream directory: its numbers, wherever its blocks lie, and their tests.
ghost use Rattle.std.specs.Prelude.{◌≡◌, ℕ, ◌+◌, ◌-◌, ◌*◌, ◌^◌, ◌≤◌, ◌<◌, Ok};
ghost use Rattle.msf.specs.Directory.{map_place, place, number_at, streams, size_of, blocks_of, listed, map_checked, filled, lists_checked, stream_checked, directory_checked, all_inside};
ghost use Rattle.msf.specs.Damage.{damaged};
ghost use Rattle.msf.specs.declared.damage.Damage.{Damage};

use crate::container::Container;
use crate::damage::Damage;
use crate::superblock::{blocks_for, word};

#[tactic(auto, unfolding(crate::specs::Directory::blocks_of))]
fn blocks_of(size: u32, n: u32) -> u32
    requires { 0 < size }
    ensures { result ≡ blocks_of size n }
{
    if n == 0xFFFF_FFFF {
        0
    } else {
        blocks_for(size, n)
    }
}

impl Container<'_> {
    // Where the k-th number of the block map stands.
    #[tactic(auto, unfolding(crate::specs::Directory::map_place))]
    fn map_place(&self, k: usize) -> usize
        requires { k < 2 ^ 60 }
        ensures { result ≡ map_place self.now.superblock k }
    {
        self.superblock.map as usize * self.superblock.size as usize + 4 * k
    }

    // Where the j-th number of the directory stands.
    #[tactic(auto, unfolding(crate::specs::Directory::place))]
    fn place(&self, j: usize) -> usize
        ensures { result ≡ place self.now.file.now self.now.superblock j }
    {
        let size = self.superblock.size as usize;
        let numbers = size / 4;
        let block = word(self.file, self.map_place(j / numbers));
        block as usize * size + 4 * (j % numbers)
    }

    #[tactic(auto, unfolding(crate::specs::Directory::number_at))]
    pub fn number_at(&self, j: usize) -> u32
        ensures { result ≡ number_at self.now.file.now self.now.superblock j }
    {
        word(self.file, self.place(j))
    }

    #[tactic(auto, unfolding(crate::specs::Directory::streams))]
    pub fn streams(&self) -> u32
        ensures { result ≡ streams self.now.file.now self.now.superblock }
    {
        self.number_at(0)
    }

    #[tactic(auto, unfolding(crate::specs::Directory::size_of))]
    pub fn size_of(&self, i: u32) -> u32
        ensures { result ≡ size_of self.now.file.now self.now.superblock i }
    {
        self.number_at(1 + i as usize)
    }

    // How many blocks are listed for the first `count` streams.
    #[tactic(auto, using(crate::proofs::DirectoryLaws::listed_more), unfolding(crate::specs::Directory::listed))]
    pub fn listed(&self, count: u32) -> usize
        ensures value { result ≡ listed self.now.file.now self.now.superblock count }
        ensures small { result ≤ count * 4294967295 }
    {
        let mut sum: usize = 0;
        for i in 0..count {
            sum += blocks_of(self.superblock.size, self.size_of(i)) as usize;
        }
        sum
    }

    // The numbers from one on, each at its place, are those of blocks inside; else the place of the first that is not.
    #[tactic(auto, using(crate::proofs::DirectoryLaws::inside_steps))]
    fn check_blocks<P: Fn(usize) -> usize>(
        &self,
        first: usize,
        end: usize,
        place: P,
    ) -> Result<(), usize>
        ghost at: { ℕ → ℕ }
        requires callable { (k : ℕ) → k < end → P.pre place k }
        requires gives { (k r : ℕ) → k < end → P.post place k r → r ≡ at k }
        ensures { (damage : ℕ → Damage) → damaged damage result ≡ all_inside self.now.file.now self.now.superblock at damage (end - first) first }
    {
        for j in first..end {
            let at = place(j);
            if !self.superblock.is_inside(word(self.file, at)) {
                return Err(at);
            }
        }
        Ok(())
    }

    // The blocks of the directory.
    #[tactic(auto, unfolding(crate::specs::Directory::map_checked))]
    fn check_map(&self) -> Result<(), Damage>
        ensures { result ≡ map_checked self.now.file.now self.now.superblock }
    {
        let count = blocks_for(self.superblock.size, self.superblock.directory);
        self.check_blocks(0, count as usize, |k| self.map_place(k))
            .map_err(Damage::DirectoryBlock)
    }

    // The numbers, sizes and lists fill the directory.
    #[tactic(auto, unfolding(crate::specs::Directory::filled))]
    fn check_filled(&self) -> Result<(), Damage>
        ensures { result ≡ filled self.now.file.now self.now.superblock }
    {
        let numbers = self.superblock.directory as usize / 4;
        let streams = self.streams();
        if numbers <= streams as usize || 1 + streams as usize + self.listed(streams) != numbers {
            return Err(Damage::Directory(self.place(0)));
        }
        Ok(())
    }

    // The lists of every stream, of a directory that is filled.
    #[tactic(auto, using(crate::proofs::DirectoryLaws::lists_left))]
    fn check_lists(&self) -> Result<(), Damage>
        requires { filled self.now.file.now self.now.superblock ≡ Ok tt }
        ensures { result ≡ lists_checked self.now.file.now self.now.superblock }
    {
        let first = 1 + self.streams() as usize;
        let end = self.superblock.directory as usize / 4;
        self.check_blocks(first, end, |j| self.place(j))
            .map_err(Damage::StreamBlock)
    }

    // The stream that is asked for is there, and there is room for it.
    #[tactic(auto, unfolding(crate::specs::Directory::stream_checked, crate::specs::Directory::streams, crate::specs::Directory::size_of))]
    fn check_stream(&self, number: u32, room: usize) -> Result<(), Damage>
        ensures { result ≡ stream_checked self.now.file.now self.now.superblock number room }
    {
        if self.streams() <= number {
            return Err(Damage::NoStream(self.place(0)));
        }
        let size = self.size_of(number);
        if size == 0xFFFF_FFFF {
            return Err(Damage::NoStream(self.place(1 + number as usize)));
        }
        if room < size as usize {
            return Err(Damage::NoRoom(size as usize));
        }
        Ok(())
    }

    #[tactic(auto, unfolding(crate::specs::Directory::directory_checked, crate::specs::Directory::streams_checked))]
    pub fn check_directory(&self, number: u32, room: usize) -> Result<(), Damage>
        ensures { result ≡ directory_checked self.now.file.now self.now.superblock number room }
    {
        self.check_map()?;
        self.check_filled()?;
        self.check_lists()?;
        self.check_stream(number, room)
    }
}
