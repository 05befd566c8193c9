// A filter list, compiled.
use acs_tree::Ident;
use dsn_mask::FilterIndex;

/// A filter list, ready to be searched: its name, and its entries twice. Beside the whole data set name its
/// words are masks of qualifiers, beside any other text simple masks.
#[derive(Drop)]
pub struct CompiledList {
    pub name: Ident,
    pub dotted: FilterIndex,
    pub plain: FilterIndex,
}
