ghost use Rattle.std.specs.Prelude.{◌≡◌, []};
ghost use Rattle.std.specs.List.{All};
ghost use Rattle.dbe_table.specs.Rows.{IsTable};
ghost use Rattle.dbe_session.specs.Reply.{Environment, State};
ghost use Rattle.dbe_session.specs.Maps.{Items, IsAcceptable, Stands, HasKeys};

/// Each map of acceptable items has a state that stands for it, where the keys that its rows need are at hand. A state
/// without rows stands for the empty map.
pub fn each_map_has_a_state()
    ensures empty { (e : Environment) (s : State) → s.rows ≡ [] → Stands e s [] }
    ensures some { (e : Environment) (m : Items) → HasKeys e → IsTable e.config.schema m → All (IsAcceptable e) m → (s : State) × Stands e s m }
{}
