// The crate holds definitions and laws only: the writing rules, the calls over them and what holds of both. A crate needs a function, and this is it.
#![tactic(auto)]

ghost use Rattle.std.specs.Prelude.{◌≡◌};

pub fn same(x: u8) -> u8
    ensures { result ≡ x }
{
    x
}
