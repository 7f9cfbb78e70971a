// Type and id indexes: two counters over two streams. One never serves as the other.
#[derive(Clone, Copy, Debug, PartialEq, Eq)]
pub struct TypeIndex(pub u32);

#[derive(Clone, Copy, Debug, PartialEq, Eq)]
pub struct IdIndex(pub u32);
