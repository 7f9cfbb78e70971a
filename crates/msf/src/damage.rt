// Why a stream of a file is not handed out. Each kind of damage has a number and a place.
ghost use Rattle.std.specs.Prelude.{◌≡◌};
ghost use Rattle.msf.specs.Damage.{number_of, place_of};

// With the place in the file of the number that is wrong; `Short` has the file's length and `NoRoom` the length that is needed.
#[derive(Clone, Copy, Debug, PartialEq, Eq)]
pub enum Damage {
    Short(usize),
    Magic(usize),
    BlockSize(usize),
    FreeBlockMap(usize),
    Cut(usize),
    DirectorySize(usize),
    BlockMap(usize),
    DirectoryBlock(usize),
    Directory(usize),
    StreamBlock(usize),
    NoStream(usize),
    NoRoom(usize),
}

impl Damage {
    // Kept: these numbers are those of the C interface, and a variant with a value has none of its own.
    pub fn number(self) -> u32
        ensures { result ≡ number_of self }
    {
        match self {
            Damage::Short(_) => 1,
            Damage::Magic(_) => 2,
            Damage::BlockSize(_) => 3,
            Damage::FreeBlockMap(_) => 4,
            Damage::Cut(_) => 5,
            Damage::DirectorySize(_) => 6,
            Damage::BlockMap(_) => 7,
            Damage::DirectoryBlock(_) => 8,
            Damage::Directory(_) => 9,
            Damage::StreamBlock(_) => 10,
            Damage::NoStream(_) => 11,
            Damage::NoRoom(_) => 12,
        }
    }

    pub fn place(self) -> usize
        ensures { result ≡ place_of self }
    {
        match self {
            Damage::Short(n)
            | Damage::Magic(n)
            | Damage::BlockSize(n)
            | Damage::FreeBlockMap(n)
            | Damage::Cut(n)
            | Damage::DirectorySize(n)
            | Damage::BlockMap(n)
            | Damage::DirectoryBlock(n)
            | Damage::Directory(n)
            | Damage::StreamBlock(n)
            | Damage::NoStream(n)
            | Damage::NoRoom(n) => n,
        }
    }
}
