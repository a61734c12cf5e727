/// Why bytes are no configuration. The first whose cause holds is answered, in this order.
#[derive(Clone, Copy, Debug, PartialEq, Eq)]
pub enum ConfigFault {
    /// More than 1,048,576 bytes.
    TooLong,
    /// No JSON.
    NotJson,
    /// A member of another name, a missing one, another type, or a text, a number or a count past its bounds.
    Shape,
    /// A key is listed with an action other than `SIGN_ONLY`.
    KeyAction,
    /// A key, listed, virtual or compound name begins with `aws_dbe_`.
    ReservedName,
    /// A name stands twice where it may stand once.
    NameTwice,
    /// The length of a standard beacon is not from 1 to 63.
    BeaconLength,
    /// A virtual field, a beacon or a part is made from a name that it may not be made from.
    BeaconSource,
    /// The prefix of a part is empty, or is a prefix of another part's prefix.
    PrefixClash,
    /// A split text is not one byte from 21 to 7E, or a prefix holds it.
    SplitChar,
    /// A compound has no part or no constructor, or a constructor has no required part.
    ConstructorEmpty,
    /// Two raw rings of one namespace and name, or two branch rings.
    RecipientTwice,
    /// More than 8 recipients.
    TooManyRecipients,
    /// A recipient of a branch, or recipients beside a beacon or a compound: they are not built yet.
    NotBuilt,
    /// Memory ran out.
    Memory,
}
