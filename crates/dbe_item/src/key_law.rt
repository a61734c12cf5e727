ghost use Rattle.std.specs.Prelude.{◌≡◌, List, ℕ};
ghost use Rattle.dbe_values.specs.Keys.{key_of};
ghost use Rattle.dbe_values.specs.declared.value.AttrValue.{AttrValue};
ghost use Rattle.dbe_config.specs.Setting.{Setting};
ghost use Rattle.dbe_item.specs.Stands.{StandsFor};

/// A row that stands for an item has the item's key.
pub fn stands_with_its_key()
    ensures { (c : Setting) (beacons row item : List (List ℕ × AttrValue)) → StandsFor c beacons row item
        → key_of c.schema row ≡ key_of c.schema item }
{}
