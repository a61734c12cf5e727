//! That sealing is undone by opening. The function does nothing; its contract is the law.

ghost use Rattle.std.specs.Prelude.{◌≡◌, ℕ, ◌≤◌, true, false, All, List, length, None};
ghost use Rattle.dbe_values.specs.Lawful.{IsLawfulItem};
ghost use Rattle.dbe_values.specs.declared.value.AttrValue.{AttrValue};
ghost use Rattle.dbe_config.specs.Bounds.{IsBounded};
ghost use Rattle.dbe_config.specs.Rules.{is_empty_list, is_not_built};
ghost use Rattle.dbe_config.specs.Setting.{Setting};
ghost use Rattle.dbe_item.specs.Acceptance.{put_fault};
ghost use Rattle.dbe_item.specs.Names.{is_beacon_name};
ghost use Rattle.dbe_item.specs.Sealed.{draw_length};
ghost use Rattle.dbe_item.specs.Stands.{SealsToStand};

/// A sealed row of an item that may be stored stands for it with its beacon attributes, opens to it by the first
/// encrypted data key, and has its key. The configuration keeps its bounds and has 1 to 8 recipients, of raw rings
/// alone; the drawn bytes are as many as it draws.
pub fn seals_to_stand()
    ensures { (c : Setting) (drawn : List ℕ) (beacons item : List (List ℕ × AttrValue))
        → IsBounded c → length c.recipients ≤ 8 → is_not_built c ≡ false → is_empty_list c.recipients ≡ false
        → IsLawfulItem item → put_fault c item ≡ None → length drawn ≡ draw_length c
        → IsLawfulItem beacons → All (λ a. is_beacon_name a.0 ≡ true) beacons
        → SealsToStand c drawn beacons item }
{}
