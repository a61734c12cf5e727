/// Why a text is no number of DynamoDB's.
#[derive(Clone, Copy, Debug, PartialEq, Eq)]
pub enum NumberFault {
    /// The text is not an optional sign, digits with at most one point among them and an optional exponent.
    NotNumber,
    /// More than 38 digits are left after leading and trailing zeros are taken away.
    TooManyDigits,
    /// The leading digit stands at a power of ten below -130 or above 125.
    OutOfRange,
}
