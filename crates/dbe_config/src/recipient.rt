use dbe_num::Text;
use dbe_values::BranchId;

/// Who can open what is sealed.
#[derive(Drop)]
pub enum Recipient {
    /// The holder of a key of 32 bytes. Namespace and name have 1 to 255 bytes.
    Raw {
        namespace: Text,
        name: Text,
        key: [u8; 32],
    },
    /// The holder of the keys of a branch.
    Branch {
        branch: BranchId,
    },
}
