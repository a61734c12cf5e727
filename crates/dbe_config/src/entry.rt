use dbe_num::Text;
use std::marker::Model;

// An entry of a constructor as it is written, before its part is sought.
#[derive(Drop)]
pub struct Entry {
    pub name: Text,
    pub required: bool,
}

#[derive(Drop)]
pub struct Entries {
    pub items: Vec<Entry>,
}

impl Model for Entries {
    ghost use Rattle.std.specs.Prelude.{List};
    ghost use Rattle.dbe_config.specs.declared.entry.Entry.{Entry};

    ghost Value = { List Entry };

    ghost view = { λ l. l.items.items };
}
