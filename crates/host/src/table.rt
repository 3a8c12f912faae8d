ghost use Rattle.std.specs.Prelude.{◌≡◌, take};

use super::host::Host;
use super::row::Row;
use super::value_type::ValueType;
use store::Stores;

// The host that goes by a table, with a byte for each node that was loaded. Of nodes that it has no row for it says
// nothing, nor of nodes that came later.
#[derive(Clone, Copy)]
pub struct Table<'a> {
    rows: &'a [u8],
}

impl<'a> Table<'a> {
    ghost use Rattle.host.specs.Table.{rows_of, row_at};

    // The rows of the first `loaded` nodes.
    pub fn new(rows: &'a [u8], loaded: usize) -> Table<'a>
        ensures { rows_of result ≡ take loaded rows.now }
    {
        Table {
            rows: rows.get(..loaded).unwrap_or(rows),
        }
    }

    // What the table says of the node.
    pub fn row(&self, node: u32) -> Row
        ensures { result ≡ row_at (rows_of self.now) node }
    {
        self.rows
            .get(node as usize)
            .copied()
            .and_then(Row::from_byte)
            .unwrap_or(Row::SILENT)
    }
}

impl Host for Table<'_> {
    ghost use Rattle.host.specs.Table.{rows_of, row_at, table_answers};

    ghost answers = { λ t. table_answers (rows_of t) };

    fn may_have_side_effects(&self, _stores: &Stores<'_>, node: u32) -> bool
        ensures { result ≡ (row_at (rows_of self.now) node).effects }
    {
        self.row(node).effects
    }

    fn value_type(&self, _stores: &Stores<'_>, node: u32) -> ValueType
        ensures { result ≡ (row_at (rows_of self.now) node).value_type }
    {
        self.row(node).value_type
    }

    fn is_global_reference(&self, _stores: &Stores<'_>, node: u32) -> bool
        ensures { result ≡ (row_at (rows_of self.now) node).global }
    {
        self.row(node).global
    }
}
