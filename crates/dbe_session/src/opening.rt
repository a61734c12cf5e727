ghost use Rattle.std.specs.Prelude.{◌≡◌, Result, IfOk};
ghost use Rattle.dbe_item.specs.declared.open_fault.OpenFault.{OpenFault as the_fault};
ghost use Rattle.dbe_item.specs.declared.unsealing.Opened.{Opened as the_opened};
ghost use Rattle.dbe_item.specs.Unsealed.{IsOpening};
ghost use Rattle.dbe_session.specs.Reply.{opened_text, checked_row};

use crate::Session;
use dbe_item::{first_beacon, unseal};
use dbe_lines::{checked_text, item_refusal, item_text};
use dbe_num::Memory;
use dbe_values::{Item, KeyValue};

impl Session {
    /// The line of the item that a row opens to, or why it opens to none. A plain row is the item.
    pub(crate) fn found(&self, key: &KeyValue, row: &Item) -> Result<Vec<u8>, Memory>
        ensures { IfOk result (λ text. (opening : Result the_opened the_fault) × IsOpening self.now.config row.now opening × (text.items ≡ opened_text self.now.config key.now opening)) }
    {
        if self.config().is_plain() {
            return item_text(self.alloc(), row);
        }
        match unseal(self.alloc(), self.rings(), row) {
            Ok(opened) => item_text(self.alloc(), &opened.item),
            Err(fault) => item_refusal(self.alloc(), self.config().schema(), key, &fault),
        }
    }

    /// What a check tells of a row: how it opens, or why it does not.
    pub(crate) fn checked(&self, key: &KeyValue, row: &Item) -> Result<Vec<u8>, Memory>
        ensures { IfOk result (λ text. (opening : Result the_opened the_fault) × IsOpening self.now.config row.now opening × (text.items ≡ checked_row self.now.config key.now opening row.now)) }
    {
        if self.config().is_plain() {
            return checked_text(self.alloc(), true, 0, None, 0);
        }
        match unseal(self.alloc(), self.rings(), row) {
            Ok(opened) => checked_text(
                self.alloc(),
                first_beacon(row).is_none(),
                opened.encrypted as u64,
                Some(opened.recipient as u64),
                opened.signed as u64,
            ),
            Err(fault) => item_refusal(self.alloc(), self.config().schema(), key, &fault),
        }
    }
}
