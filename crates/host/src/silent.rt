ghost use Rattle.std.specs.Prelude.{◌≡◌, true, false};
ghost use Rattle.host.specs.declared.value_type.ValueType.TheVariants.{Undetermined};
ghost use Rattle.host.specs.Silent.{silent_answers};

use super::host::Host;
use super::value_type::ValueType;
use store::Stores;

// The host that knows nothing.
#[derive(Clone, Copy)]
pub struct Silent;

impl Host for Silent {
    ghost answers = { λ _. silent_answers };

    fn may_have_side_effects(&self, _stores: &Stores<'_>, _node: u32) -> bool
        ensures { result ≡ true }
    {
        true
    }

    fn value_type(&self, _stores: &Stores<'_>, _node: u32) -> ValueType
        ensures { result ≡ Undetermined }
    {
        ValueType::Undetermined
    }

    fn is_global_reference(&self, _stores: &Stores<'_>, _node: u32) -> bool
        ensures { result ≡ false }
    {
        false
    }
}
