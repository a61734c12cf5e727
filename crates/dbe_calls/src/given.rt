//! What earlier lines gave: a configuration, rows and a script.

use crate::texts::push;
use dbe_num::Memory;
use dbe_values::{Item, item_from_json, json_value};
use serde_json::Value;
use std::alloc::Global;

#[derive(Drop)]
pub(crate) struct Given {
    config: String,
    rows: String,
    script: String,
}

impl Given {
    pub(crate) fn new(alloc: Global) -> Given {
        Given {
            config: String::new(alloc),
            rows: String::new(alloc),
            script: String::new(alloc),
        }
    }

    /// A configuration, without rows and without a script.
    pub(crate) fn begin(&mut self, alloc: Global, config: &str) -> Result<(), Memory> {
        self.config = String::from_str(alloc, config)?;
        self.rows = String::new(alloc);
        self.script = String::new(alloc);
        Ok(())
    }

    /// A row that the table begins with.
    pub(crate) fn add_row(&mut self, row: &str) -> Result<(), Memory> {
        push(&mut self.rows, row)?;
        push(&mut self.rows, "\n")
    }

    /// A line of the script.
    pub(crate) fn add_line(&mut self, line: &str) -> Result<(), Memory> {
        push(&mut self.script, line)?;
        push(&mut self.script, "\n")
    }

    pub(crate) fn config(&self) -> &str {
        self.config.as_str()
    }

    pub(crate) fn script(&self) -> &str {
        self.script.as_str()
    }

    /// The rows that the table begins with.
    pub(crate) fn rows(&self, alloc: Global) -> Result<Vec<Item>, Memory> {
        let mut rows = Vec::new(alloc);
        push_rows(alloc, &mut rows, self.rows.as_str())?;
        Ok(rows)
    }
}

fn push_rows(alloc: Global, rows: &mut Vec<Item>, lines: &str) -> Result<(), Memory> {
    for line in lines.lines() {
        push_row(alloc, rows, line)?;
    }
    Ok(())
}

fn push_row(alloc: Global, rows: &mut Vec<Item>, line: &str) -> Result<(), Memory> {
    match json_value(alloc, line.as_bytes())? {
        Some(json) => push_item(alloc, rows, &json),
        None => Ok(()),
    }
}

fn push_item(alloc: Global, rows: &mut Vec<Item>, json: &Value) -> Result<(), Memory> {
    if let Ok(item) = item_from_json(alloc, json) {
        rows.push(item)?;
    }
    Ok(())
}
