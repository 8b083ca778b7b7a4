// What belongs to one vault beside its tables, its board and its seal scheme.
use office::Office;
use terms::numbers::Change;
use terms::sizes::Sizes;

// Only set-up makes one. It is lent to every call.
#[derive(Drop)]
pub struct Vault {
    pub(crate) sizes: Sizes,
    pub(crate) change: Change,
    pub(crate) office: Office,
}
