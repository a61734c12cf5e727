/// What is done with an attribute of an item.
#[derive(Clone, Copy, Debug, PartialEq, Eq)]
pub enum Action {
    /// `ENCRYPT_AND_SIGN`
    EncryptAndSign,
    /// `SIGN_ONLY`
    SignOnly,
    /// `DO_NOTHING`
    DoNothing,
}
