// The pointer levels on the way to a type, and the byte sizes of an array's levels; the newest lies lowest.
ghost use Rattle.std.specs.Prelude.{◌≡◌, [], ◌∷◌, ◌-◌, ◌≤◌, ◌<◌};
ghost use Rattle.rules.specs.Text.{over_pointee};
ghost use Rattle.context.specs.Context.{level_byte, level_of, level_at, levels_of, no_levels, pushed_level, over_levels, AreLevels};

use codeview::record::PointerMode;

#[derive(Clone, Copy)]
pub struct PtrAttributes {
    pub constant: bool,
    pub pointee: bool,
    pub mode: PointerMode,
}

// Each level is packed in a byte, so that a stack of 96 is small: it is handed down by value.
// Kept: an array with the place where its levels begin, since there is no heap.
#[derive(Clone, Copy)]
pub struct Levels {
    pub items: [u8; 96],
    pub left: usize,
}

// Kept: the same.
#[derive(Clone, Copy)]
pub struct Dimensions {
    pub items: [u64; 32],
    pub left: usize,
}

// A level in one byte: bit 0 is its const, bit 1 the const of what is pointed to, and above them is the mode.
impl From<PtrAttributes> for u8 {
    ghost from_gives = { λ l b. b ≡ level_byte l.constant l.pointee l.mode };

    #[tactic(auto, unfolding(crate::specs::Context::flags_byte, crate::specs::Context::mode_byte))]
    fn from(l: PtrAttributes) -> u8
        ensures { result ≡ level_byte l.constant l.pointee l.mode }
    {
        u8::from(l.constant) + 2 * u8::from(l.pointee) + 4 * l.mode as u8
    }
}

// The level that a byte holds.
impl From<u8> for PtrAttributes {
    ghost from_gives = { λ b l. level_of l ≡ level_at b };

    #[tactic(auto, unfolding(crate::specs::Context::level_at, crate::specs::Context::mode_at))]
    fn from(b: u8) -> PtrAttributes
        ensures { level_of result ≡ level_at b }
    {
        PtrAttributes {
            constant: b % 2 == 1,
            pointee: b / 2 % 2 == 1,
            mode: match b / 4 {
                0 => PointerMode::Pointer,
                1 => PointerMode::LValueReference,
                2 => PointerMode::Member,
                3 => PointerMode::MemberFunction,
                _ => PointerMode::RValueReference,
            },
        }
    }
}

impl Levels {
    #[tactic(auto, unfolding(crate::specs::Context::no_levels, crate::specs::Context::levels_of))]
    pub fn new() -> Levels
        ensures { AreLevels result no_levels 96 [] }
    {
        Levels {
            items: [0; 96],
            left: 96,
        }
    }

    // One level further in.
    pub fn push(mut self, l: PtrAttributes) -> Levels
        requires { (0 < self.left) × (self.left ≤ 96) }
        ensures { AreLevels result (pushed_level self l) (self.left - 1) (level_of l ∷ levels_of self) }
    {
        self.left -= 1;
        self.items[self.left] = u8::from(l);
        self
    }

    // A modifier between the last pointer and what it points to.
    #[tactic(auto, unfolding(crate::specs::Context::over_levels, crate::specs::Context::levels_of, rules::specs::Text::over_pointee))]
    pub fn over_pointee(mut self, constant: bool) -> Levels
        ensures { AreLevels result (over_levels self constant) self.left (over_pointee constant (levels_of self)) }
    {
        if self.left < 96 {
            let l = PtrAttributes::from(self.items[self.left]);
            self.items[self.left] = u8::from(PtrAttributes {
                pointee: constant,
                ..l
            });
        }
        self
    }
}
