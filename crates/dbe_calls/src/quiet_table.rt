use dbe_cond::Wanted;
use dbe_table::{MemTable, Table, TableFault};
use dbe_values::{Item, KeySchema, KeyValue};

/// A table that tells nothing of its rows, as one over a file.
#[derive(Drop)]
pub(crate) struct QuietTable {
    pub(crate) table: MemTable,
}

impl Table for QuietTable {
    ghost use Rattle.std.specs.Prelude.{None};

    ghost coming = { λ _ _. None };

    ghost rows = { λ _. None };

    ghost begun = { λ t. t.table.begun };

    ghost given = { λ t. t.table.given };

    ghost faults = { λ t. t.table.faults };

    fn begin(&mut self, schema: &KeySchema) -> Result<(), TableFault> {
        self.table.begin(schema)
    }

    fn put(&mut self, row: Item) -> Result<(), TableFault> {
        self.table.put(row)
    }

    fn get(&mut self, key: &KeyValue) -> Result<Option<Item>, TableFault> {
        self.table.get(key)
    }

    fn select(&mut self, wanted: &Wanted) -> Result<Vec<Item>, TableFault> {
        self.table.select(wanted)
    }
}
