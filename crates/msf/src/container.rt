// The container: a file with its superblock, which every test after the superblock's goes by.
ghost use Rattle.std.specs.Prelude.{◌≡◌, IfOk, Ok};
ghost use Rattle.msf.specs.Damage.{◌⨾◌};
ghost use Rattle.msf.specs.Superblock.{superblock_of, superblock_checked};
ghost use Rattle.msf.specs.Inner.{Sound};

use crate::damage::Damage;
use crate::superblock::Superblock;

// A file whose superblock is good, with its superblock.
#[derive(Clone, Copy)]
pub struct Container<'a> {
    pub file: &'a [u8],
    pub superblock: Superblock,
    ghost sound: { Sound file.now superblock },
}

impl<'a> Container<'a> {
    #[tactic(auto, using(crate::proofs::Laws::sound))]
    pub fn open(file: &'a [u8]) -> Result<Container<'a>, Damage>
        ensures checked { (result ⨾ Ok tt) ≡ superblock_checked file.now (superblock_of file.now) }
        ensures ok { IfOk result (λ c. (c.file.now ≡ file.now) × (c.superblock ≡ superblock_of file.now)) }
    {
        let superblock = Superblock::read(file);
        superblock.check(file)?;
        Ok(Container { file, superblock })
    }
}
