use dbe_num::Text;

/// Why the table is not asked for a condition.
#[derive(Debug, Drop)]
pub enum RewriteFault {
    /// A name in it is one that dbe keeps for itself.
    NotSearchable { name: Text },
}
