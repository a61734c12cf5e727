ghost use Rattle.std.specs.Prelude.{◌≡◌};
ghost use Rattle.dbe_values.specs.Reading.{kind_of};

/// The ten types of values, by the names that JSON has for them.
#[derive(Clone, Copy, Debug, PartialEq, Eq)]
pub enum Kind {
    S,
    N,
    B,
    Bool,
    Null,
    Ss,
    Ns,
    Bs,
    L,
    M,
}

/// The type that a name names.
pub fn kind_of(name: &str) -> Option<Kind>
    ensures { result ≡ kind_of name.now }
{
    if name == "S" {
        Some(Kind::S)
    } else if name == "N" {
        Some(Kind::N)
    } else if name == "B" {
        Some(Kind::B)
    } else if name == "BOOL" {
        Some(Kind::Bool)
    } else if name == "NULL" {
        Some(Kind::Null)
    } else if name == "SS" {
        Some(Kind::Ss)
    } else if name == "NS" {
        Some(Kind::Ns)
    } else if name == "BS" {
        Some(Kind::Bs)
    } else if name == "L" {
        Some(Kind::L)
    } else if name == "M" {
        Some(Kind::M)
    } else {
        None
    }
}
