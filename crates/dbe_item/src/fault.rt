use dbe_num::Text;

/// Why an item may not be stored. The first whose cause holds is answered, in this order.
#[derive(Debug, Drop)]
pub enum PutFault {
    /// It has no lawful key: the first key name, partition before sort, whose attribute is absent, of another type,
    /// empty or too large.
    Key { name: Text },
    /// A name begins with `aws_dbe_`: the first, by bytes.
    Reserved { name: Text },
    /// A name has no action: the first, by bytes.
    Unknown { name: Text },
    /// More than 1,000 attributes.
    TooMany,
    /// The bytes of the names and the canonical bytes of the values are more than 409,600.
    Size,
    /// Memory ran out.
    Memory,
}
