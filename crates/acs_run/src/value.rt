// What a variable holds.
use dsn_mask::Short;

/// What a variable holds in a run: a text, a number, a size in KB, the volumes of the request, of which one
/// or all are meant, or the storage groups.
#[derive(Clone, Copy)]
pub enum Value {
    Text(Short),
    Number(u64),
    Size(u64),
    AnyVolume,
    AllVolumes,
    StorageGroups,
}
