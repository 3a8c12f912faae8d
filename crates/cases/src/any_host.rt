// A host of any kind.
use host::{Host, Silent, Structural, Table, ValueType};
use store::Stores;

// One of the three hosts, which is known only when a word was read.
#[derive(Clone, Copy)]
pub enum AnyHost<'a> {
    Silent,
    Structural(Structural<'a>),
    Table(Table<'a>),
}

impl Host for AnyHost<'_> {
    ghost use Rattle.cases.specs.Hosts.{answers_of};

    ghost answers = { answers_of };

    fn may_have_side_effects(&self, stores: &Stores<'_>, node: u32) -> bool {
        match self {
            AnyHost::Silent => Silent.may_have_side_effects(stores, node),
            AnyHost::Structural(host) => host.may_have_side_effects(stores, node),
            AnyHost::Table(host) => host.may_have_side_effects(stores, node),
        }
    }

    fn value_type(&self, stores: &Stores<'_>, node: u32) -> ValueType {
        match self {
            AnyHost::Silent => Silent.value_type(stores, node),
            AnyHost::Structural(host) => host.value_type(stores, node),
            AnyHost::Table(host) => host.value_type(stores, node),
        }
    }

    fn is_global_reference(&self, stores: &Stores<'_>, node: u32) -> bool {
        match self {
            AnyHost::Silent => Silent.is_global_reference(stores, node),
            AnyHost::Structural(host) => host.is_global_reference(stores, node),
            AnyHost::Table(host) => host.is_global_reference(stores, node),
        }
    }
}
