/// Why a ring does not unwrap a data key.
#[derive(Clone, Copy, Debug, PartialEq, Eq)]
pub enum RingFault {
    /// The provider or the information is not the ring's, or the ciphertext has not 108 bytes.
    NotMine,
    /// It is the ring's, and one of its two tags differs: the ring's key, the context or a byte of the ciphertext is
    /// another.
    NotAuthentic,
}
