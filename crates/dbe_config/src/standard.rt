use dbe_num::Text;

/// A standard beacon: the hash of an encrypted attribute or of a virtual field.
#[derive(Drop)]
pub struct Standard {
    pub name: Text,
    /// How many bits of the hash are kept, from 1 to 63.
    pub length: u8,
}
