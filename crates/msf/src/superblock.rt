// The superblock: its numbers and their tests.
ghost use Rattle.std.specs.Prelude.{◌≡◌, ◌<◌, ◌≤◌, length};
ghost use Rattle.msf.specs.Superblock.{word, superblock_of, same_from, is_block_size, is_free_map, blocks_for, is_directory_size, inside, numbers_checked, superblock_checked};

use crate::damage::Damage;
use wire::field::field_at;

// The numbers of a superblock: the size of a block, the block of the free map, how many blocks, the bytes of the directory, the block of its map.
#[derive(Clone, Copy)]
pub struct Superblock {
    pub size: u32,
    pub free: u32,
    pub blocks: u32,
    pub directory: u32,
    pub map: u32,
}

// The number at a place; 0 where none stands.
pub fn word(file: &[u8], at: usize) -> u32
    ensures { result ≡ word file.now at }
{
    field_at::<u32>(file, at).unwrap_or(0)
}

// The first bytes of the file are these.
#[tactic(auto, using(crate::proofs::Laws::differs, crate::proofs::Laws::agrees), unfolding(crate::specs::Superblock::same_from))]
fn same(file: &[u8], magic: &[u8]) -> Result<(), Damage>
    requires { length magic.now ≤ length file.now }
    ensures { result ≡ same_from magic.now file.now 0 }
{
    for (i, b) in magic.iter().enumerate() {
        if file[i] != *b {
            return Err(Damage::Magic(i));
        }
    }
    Ok(())
}

#[tactic(auto, unfolding(crate::specs::Superblock::is_block_size))]
fn is_block_size(n: u32) -> bool
    ensures { result ≡ is_block_size n }
{
    matches!(n, 512 | 1024 | 2048 | 4096 | 8192 | 16384 | 32768)
}

#[tactic(auto, unfolding(crate::specs::Superblock::is_free_map))]
fn is_free_map(n: u32) -> bool
    ensures { result ≡ is_free_map n }
{
    matches!(n, 1 | 2)
}

// How many blocks so many bytes take.
#[tactic(auto, using(crate::proofs::Laws::rounded_up))]
pub fn blocks_for(size: u32, n: u32) -> u32
    requires { 0 < size }
    ensures { result ≡ blocks_for size n }
{
    n.div_ceil(size)
}

#[tactic(auto, unfolding(crate::specs::Superblock::is_directory_size))]
fn is_directory_size(size: u32, n: u32) -> bool
    requires { 0 < size }
    ensures { result ≡ is_directory_size size n }
{
    (n % 4 == 0) & (0 < n) & (4 * blocks_for(size, n) as usize <= size as usize)
}

impl Superblock {
    #[tactic(auto, unfolding(crate::specs::Superblock::superblock_of))]
    pub fn read(file: &[u8]) -> Superblock
        ensures { result ≡ superblock_of file.now }
    {
        Superblock {
            size: word(file, 32),
            free: word(file, 36),
            blocks: word(file, 40),
            directory: word(file, 44),
            map: word(file, 52),
        }
    }

    #[tactic(auto, unfolding(crate::specs::Superblock::inside))]
    pub fn is_inside(self, n: u32) -> bool
        ensures { result ≡ inside self n }
    {
        (0 < n) & (n < self.blocks)
    }

    // The numbers behind the magic.
    #[tactic(auto, using(crate::proofs::Laws::size_least), unfolding(crate::specs::Superblock::numbers_checked))]
    fn check_numbers(self, file: &[u8]) -> Result<(), Damage>
        ensures { result ≡ numbers_checked file.now self }
    {
        if !is_block_size(self.size) {
            return Err(Damage::BlockSize(32));
        }
        if !is_free_map(self.free) {
            return Err(Damage::FreeBlockMap(36));
        }
        if file.len() < self.blocks as usize * self.size as usize {
            return Err(Damage::Cut(40));
        }
        if !is_directory_size(self.size, self.directory) {
            return Err(Damage::DirectorySize(44));
        }
        if !self.is_inside(self.map) {
            return Err(Damage::BlockMap(52));
        }
        Ok(())
    }

    #[tactic(auto, unfolding(crate::specs::Superblock::superblock_checked))]
    pub fn check(self, file: &[u8]) -> Result<(), Damage>
        ensures { result ≡ superblock_checked file.now self }
    {
        if file.len() < 56 {
            return Err(Damage::Short(file.len()));
        }
        same(file, b"Microsoft C/C++ MSF 7.00\r\n\x1aDS\0\0\0")?;
        self.check_numbers(file)
    }
}
