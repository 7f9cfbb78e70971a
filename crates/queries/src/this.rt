// The this pointer of a method: whether it is one to the method's class.
ghost use Rattle.std.specs.Prelude.{◌≡◌};
ghost use Rattle.rules.specs.Record.{type_as_read};
ghost use Rattle.codeview.specs.Read.{read_type_in};
ghost use Rattle.queries.specs.This.{pointee_of, this_of};

use codeview::index::TypeIndex;
use codeview::lent::Lent;
use codeview::record::TypeData;
use streams::refusal::Refusal;

// What is pointed to: the class, or a modifier of it.
#[tactic(auto, unfolding(crate::specs::This::pointee_of, crate::specs::This::reading, crate::specs::This::through_modifier, rules::specs::Record::type_as_read, rules::specs::Record::type_contents))]
fn of_pointee(lent: &Lent, pointee: TypeIndex, class: TypeIndex) -> Result<Option<bool>, Refusal>
    ensures { result ≡ pointee_of (λ i. type_as_read lent.now.types.now (read_type_in lent.now.types.now lent.now.bounds.now lent.now.places.now i)) pointee.0 class.0 }
{
    if pointee == class {
        return Ok(Some(false));
    }
    let TypeData::Modifier(m) = lent.type_at(pointee)? else {
        return Ok(None);
    };
    Ok((m.underlying == class).then_some(m.constant))
}

// Index 0 is no this pointer: the method is static.
#[tactic(auto, unfolding(crate::specs::This::this_of, crate::specs::This::reading, rules::specs::Record::type_as_read, rules::specs::Record::type_contents))]
pub fn check_ptr_class(
    lent: &Lent,
    this: TypeIndex,
    class: TypeIndex,
) -> Result<Option<bool>, Refusal>
    ensures { result ≡ this_of (λ i. type_as_read lent.now.types.now (read_type_in lent.now.types.now lent.now.bounds.now lent.now.places.now i)) this.0 class.0 }
{
    if this.0 == 0 {
        return Ok(Some(false));
    }
    let TypeData::Pointer(p) = lent.type_at(this)? else {
        return Ok(None);
    };
    of_pointee(lent, p.underlying, class)
}
