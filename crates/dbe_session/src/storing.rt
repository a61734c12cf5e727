ghost use Rattle.std.specs.Prelude.{◌≡◌, ◌⊎◌, ℕ, List, [], None, Some, false, true, Bool, IfOk, IfSome, OnErr, length};
ghost use Rattle.std.specs.Io.KnownBytes.{Consumes, Keeps};
ghost use Rattle.dbe_values.specs.Keys.{has_key};
ghost use Rattle.dbe_io.specs.Causes.{HasCause};
ghost use Rattle.dbe_config.specs.Rules.{is_empty_list};
ghost use Rattle.dbe_item.specs.Acceptance.{put_fault};
ghost use Rattle.dbe_item.specs.Sealed.{draw_length, sealed_row};
ghost use Rattle.dbe_table.specs.Rows.{Row, put_row};
ghost use Rattle.dbe_lines.specs.Texts.{put_text};
ghost use Rattle.dbe_session.specs.Faults.{is_table_fault, is_dice_fault};
ghost use Rattle.dbe_session.specs.Reply.{Environment, State, stored_draws};
ghost use Rattle.dbe_session.specs.Steps.{told, IsState, Stored, DrawsAtMost};

use crate::{Session, StepFault};
use dbe_io::Dice;
use dbe_item::{draw_length, seal};
use dbe_lines::{is_large_row, put_text, refused_text};
use dbe_table::Table;
use dbe_values::Item;

impl Session {
    /// Stores an item that may be stored: over a plain table as it is, else its sealed row, if that is not too long.
    #[tactic(auto, using(crate::proofs::Replies::draws_none))]
    pub(crate) fn store<T: Table, D: Dice>(
        &self,
        table: &mut T,
        dice: &mut D,
        item: Item,
    ) -> Result<Vec<u8>, StepFault>
        requires begun { T.begun table.old ≡ Some self.now.config.schema }
        requires accepted { put_fault self.now.config item ≡ None }
        ensures ok { IfOk result (λ text. (e : Environment) (s : State) → IsState self.now (told (T.rows table.old) (T.given table.old) (D.left dice.old)) e s → Stored e s item text.items (told (T.rows table.old) (T.given table.old) (D.left dice.old)) (told (T.rows table.new) (T.given table.new) (D.left dice.new))) }
        ensures rows { OnErr result (T.rows table.new ≡ T.rows table.old) }
        ensures drawn { OnErr result (DrawsAtMost self.now.config (D.left dice.old) (D.left dice.new)) }
        ensures given { T.given table.new ≡ T.given table.old }
        ensures begun { T.begun table.new ≡ T.begun table.old }
        ensures cause { HasCause (is_table_fault result) (T.faults table.old) (T.faults table.new) }
        ensures dice_cause { HasCause (is_dice_fault result) (D.faults dice.old) (D.faults dice.new) }
        ensures undrawn { stored_draws self.now.config ≡ 0 → dice.new ≡ dice.old }
        ensures dice_kept { is_dice_fault result ≡ true → Keeps (D.left dice.old) (D.left dice.new) }
    {
        self.is_sealing();
        item.is_lawful();
        if self.config().is_plain() {
            return self.store_row(table, item);
        }
        let row = self.sealed(dice, &item)?;
        if is_large_row(self.alloc(), &row)? {
            return Ok(refused_text(self.alloc(), "size")?);
        }
        self.store_row(table, row)
    }

    // The reply is made first, so that a row whose reply can't be written is not stored.
    fn store_row<T: Table>(&self, table: &mut T, row: Item) -> Result<Vec<u8>, StepFault>
        requires begun { T.begun table.old ≡ Some self.now.config.schema }
        requires key { has_key self.now.config.schema row ≡ true }
        ensures ok { IfOk result (λ text. text.items ≡ put_text) }
        ensures stored { IfOk result (λ text. IfSome (T.rows table.old) (λ rows. T.rows table.new ≡ Some (put_row self.now.config.schema row rows))) }
        ensures rows { OnErr result (T.rows table.new ≡ T.rows table.old) }
        ensures given { T.given table.new ≡ T.given table.old }
        ensures begun { T.begun table.new ≡ T.begun table.old }
        ensures cause { HasCause (is_table_fault result) (T.faults table.old) (T.faults table.new) }
        ensures no_dice { is_dice_fault result ≡ false }
    {
        let text = put_text(self.alloc())?;
        table.put(row)?;
        Ok(text)
    }

    // The sealed row of an item, with bytes that are drawn in one fill.
    #[tactic(auto, using(crate::proofs::Replies::all_kept))]
    fn sealed<D: Dice>(&self, dice: &mut D, item: &Item) -> Result<Item, StepFault>
        requires encrypted { is_empty_list self.now.config.recipients ≡ false }
        requires accepted { put_fault self.now.config item.now ≡ None }
        ensures ok { IfOk result (λ row. (drawn : List ℕ) × (length drawn ≡ draw_length self.now.config) × Consumes (D.left dice.old) (D.left dice.new) drawn × (row ≡ sealed_row self.now.config drawn [] item.now)) }
        ensures drawn { OnErr result (Keeps (D.left dice.old) (D.left dice.new) ⊎ ((drawn : List ℕ) × (length drawn ≡ draw_length self.now.config) × Consumes (D.left dice.old) (D.left dice.new) drawn)) }
        ensures cause { HasCause (is_dice_fault result) (D.faults dice.old) (D.faults dice.new) }
        ensures kept { is_dice_fault result ≡ true → Keeps (D.left dice.old) (D.left dice.new) }
        ensures no_table { is_table_fault result ≡ false }
    {
        let mut drawn = vec![in self.alloc(); 0u8; draw_length(self.config())]?;
        dice.fill(&mut drawn)?;
        let none = Item::new(self.alloc());
        Ok(seal(self.alloc(), self.rings(), &drawn, &none, item)?)
    }
}
