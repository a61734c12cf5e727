use dbe_num::Text;

/// A pair of the context that a configuration adds to each header.
#[derive(Drop)]
pub struct ContextPair {
    /// 1 to 255 bytes.
    pub key: Text,
    /// At most 1,024 bytes.
    pub value: Text,
}
