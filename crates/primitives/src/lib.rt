// The primitive types: one table of 43 kinds, searched by the low byte of a primitive's index.
#![tactic(auto)]

ghost use Rattle.std.specs.Prelude.{◌≡◌, ◌≤◌, true, false, Some, None, [], length, option_map};
ghost use Rattle.primitives.specs.Primitive.{primitives, first_of, kind_of};

// A kind: its code, its byte size, and its name.
#[derive(Clone, Copy)]
pub struct PrimitiveKind {
    pub code: u8,
    pub size: u8,
    pub name: &'static [u8],
}

#[rattlefmt::skip]
static PRIMITIVES: [PrimitiveKind; 43] = [
    PrimitiveKind { code: 0x00, size: 0, name: b"<NoType>" },
    PrimitiveKind { code: 0x03, size: 0, name: b"void" },
    PrimitiveKind { code: 0x08, size: 4, name: b"HRESULT" },
    PrimitiveKind { code: 0x10, size: 1, name: b"signed char" },
    PrimitiveKind { code: 0x11, size: 2, name: b"short" },
    PrimitiveKind { code: 0x12, size: 4, name: b"long" },
    PrimitiveKind { code: 0x13, size: 8, name: b"long long" },
    PrimitiveKind { code: 0x14, size: 16, name: b"int128_t" },
    PrimitiveKind { code: 0x20, size: 1, name: b"unsigned char" },
    PrimitiveKind { code: 0x21, size: 2, name: b"unsigned short" },
    PrimitiveKind { code: 0x22, size: 4, name: b"unsigned long" },
    PrimitiveKind { code: 0x23, size: 8, name: b"unsigned long long" },
    PrimitiveKind { code: 0x24, size: 16, name: b"uint128_t" },
    PrimitiveKind { code: 0x30, size: 1, name: b"bool" },
    PrimitiveKind { code: 0x31, size: 2, name: b"bool16_t" },
    PrimitiveKind { code: 0x32, size: 4, name: b"bool32_t" },
    PrimitiveKind { code: 0x33, size: 8, name: b"bool64_t" },
    PrimitiveKind { code: 0x40, size: 4, name: b"float" },
    PrimitiveKind { code: 0x41, size: 8, name: b"double" },
    PrimitiveKind { code: 0x42, size: 10, name: b"long double" },
    PrimitiveKind { code: 0x43, size: 16, name: b"long double" },
    PrimitiveKind { code: 0x44, size: 6, name: b"float48_t" },
    PrimitiveKind { code: 0x45, size: 4, name: b"float" },
    PrimitiveKind { code: 0x46, size: 2, name: b"float16_t" },
    PrimitiveKind { code: 0x50, size: 8, name: b"complex<float>" },
    PrimitiveKind { code: 0x51, size: 16, name: b"complex<double>" },
    PrimitiveKind { code: 0x52, size: 20, name: b"complex<long double>" },
    PrimitiveKind { code: 0x53, size: 32, name: b"complex<long double>" },
    PrimitiveKind { code: 0x68, size: 1, name: b"int8_t" },
    PrimitiveKind { code: 0x69, size: 1, name: b"uint8_t" },
    PrimitiveKind { code: 0x70, size: 1, name: b"char" },
    PrimitiveKind { code: 0x71, size: 2, name: b"wchar_t" },
    PrimitiveKind { code: 0x72, size: 2, name: b"int16_t" },
    PrimitiveKind { code: 0x73, size: 2, name: b"uint16_t" },
    PrimitiveKind { code: 0x74, size: 4, name: b"int" },
    PrimitiveKind { code: 0x75, size: 4, name: b"unsigned int" },
    PrimitiveKind { code: 0x76, size: 8, name: b"int64_t" },
    PrimitiveKind { code: 0x77, size: 8, name: b"uint64_t" },
    PrimitiveKind { code: 0x78, size: 16, name: b"int128_t" },
    PrimitiveKind { code: 0x79, size: 16, name: b"uint128_t" },
    PrimitiveKind { code: 0x7a, size: 2, name: b"char16_t" },
    PrimitiveKind { code: 0x7b, size: 4, name: b"char32_t" },
    PrimitiveKind { code: 0x7c, size: 1, name: b"char8_t" },
];

// The kind of a code.
pub fn find_primitive(code: u8) -> Option<&'static PrimitiveKind>
    ensures { option_map (λ k. kind_of k.now) result ≡ first_of code primitives (λ k. Some k) None }
{
    PRIMITIVES.iter().find(|k| k.code == code)
}

// Whether a kind has a code.
pub fn is_listed(code: u8) -> bool
    ensures { result ≡ first_of code primitives (λ _. true) false }
{
    find_primitive(code).is_some()
}

// The byte size of the kind of a code; 0 where no kind has it.
pub fn primitive_size(code: u8) -> u8
    ensures { result ≡ first_of code primitives (λ k. k.size) 0 }
{
    find_primitive(code).map_or(0, |k| k.size)
}

// The name of the kind of a code; nothing where no kind has it.
pub fn kind_name(code: u8) -> &'static [u8]
    ensures { (result.now ≡ first_of code primitives (λ k. k.name) []) × (length result.now ≤ 20) }
{
    find_primitive(code).map_or(b"".as_slice(), |k| k.name)
}
