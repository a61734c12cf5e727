ghost use Rattle.std.specs.Prelude.{◌≡◌};
ghost use Rattle.dbe_values.specs.View.{view};
ghost use Rattle.dbe_canon.specs.Canon.{type_id};
ghost use Rattle.dbe_canon.specs.Reading.{kind_of};

use dbe_values::AttrValue;

/// The ten types of values.
#[derive(Clone, Copy, Debug, PartialEq, Eq)]
pub enum Kind {
    Null,
    S,
    N,
    Bool,
    B,
    Ss,
    Ns,
    Bs,
    M,
    L,
}

/// The two bytes that name a value's type. Takes no memory.
pub fn type_id(value: &AttrValue) -> [u8; 2]
    ensures { result ≡ type_id (view value.now) }
{
    match value {
        AttrValue::Null => [0x00, 0x00],
        AttrValue::S(_) => [0x00, 0x01],
        AttrValue::N(_) => [0x00, 0x02],
        AttrValue::Bool(_) => [0x00, 0x04],
        AttrValue::B(_) => [0xff, 0xff],
        AttrValue::Ss(_) => [0x01, 0x01],
        AttrValue::Ns(_) => [0x01, 0x02],
        AttrValue::Bs(_) => [0x01, 0xff],
        AttrValue::M(_) => [0x02, 0x00],
        AttrValue::L(_) => [0x03, 0x00],
    }
}

/// The type that an id names.
pub fn kind_of(id: &[u8]) -> Option<Kind>
    ensures { result ≡ kind_of id.now }
{
    if id == [0x00, 0x00].as_slice() {
        Some(Kind::Null)
    } else if id == [0x00, 0x01].as_slice() {
        Some(Kind::S)
    } else if id == [0x00, 0x02].as_slice() {
        Some(Kind::N)
    } else if id == [0x00, 0x04].as_slice() {
        Some(Kind::Bool)
    } else if id == [0xff, 0xff].as_slice() {
        Some(Kind::B)
    } else if id == [0x01, 0x01].as_slice() {
        Some(Kind::Ss)
    } else if id == [0x01, 0x02].as_slice() {
        Some(Kind::Ns)
    } else if id == [0x01, 0xff].as_slice() {
        Some(Kind::Bs)
    } else if id == [0x02, 0x00].as_slice() {
        Some(Kind::M)
    } else if id == [0x03, 0x00].as_slice() {
        Some(Kind::L)
    } else {
        None
    }
}
