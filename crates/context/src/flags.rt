// The flags of a call, and what is the same for a whole call.
ghost use Rattle.std.specs.Prelude.{◌≡◌};
ghost use Rattle.context.specs.Context.{known};

use streams::refusal::Refusal;

#[derive(Clone, Copy, PartialEq, Eq)]
pub struct TypeFormatterFlags(pub u32);

impl TypeFormatterFlags {
    // Do not print the return type of the root function.
    pub const NO_FUNCTION_RETURN: TypeFormatterFlags = TypeFormatterFlags(0b1);
    // Do not print `static` before the signature of a static method.
    pub const NO_MEMBER_FUNCTION_STATIC: TypeFormatterFlags = TypeFormatterFlags(0b10);
    // Add a space after each comma in an argument list.
    pub const SPACE_AFTER_COMMA: TypeFormatterFlags = TypeFormatterFlags(0b100);
    // Add a space before the `*` or `&` of a pointer or reference.
    pub const SPACE_BEFORE_POINTER: TypeFormatterFlags = TypeFormatterFlags(0b1000);
    // Only print the name of a class, without the word for its kind.
    pub const NAME_ONLY: TypeFormatterFlags = TypeFormatterFlags(0b1_0000);
    // Do not print a function's argument types.
    pub const NO_ARGUMENTS: TypeFormatterFlags = TypeFormatterFlags(0b10_0000);

    // The flags of a number: 1 where it has a bit that is no flag.
    #[tactic(auto, unfolding(crate::specs::Context::known))]
    pub fn from_bits(bits: u32) -> Result<TypeFormatterFlags, Refusal>
        ensures { result ≡ known bits }
    {
        if bits < 64 {
            return Ok(TypeFormatterFlags(bits));
        }
        Err(Refusal::UnknownFlags(bits))
    }

    // Whether some flag is among both.
    #[tactic(auto, unfolding(crate::specs::Context::intersects))]
    pub fn intersects(self, other: TypeFormatterFlags) -> bool
        ensures { result ≡ Rattle.context.specs.Context.intersects self.0 other.0 }
    {
        self.0 & other.0 != 0
    }
}

// What is the same for a whole call, and how many ids of the chain of scopes there are so far.
#[derive(Clone, Copy)]
pub struct Call {
    pub flags: TypeFormatterFlags,
    pub size: u32,
    pub chain: u32,
}

impl Call {
    // Whether a flag is set.
    pub fn has(self, flag: TypeFormatterFlags) -> bool
        ensures { result ≡ Rattle.context.specs.Context.intersects self.flags.0 flag.0 }
    {
        self.flags.intersects(flag)
    }
}
