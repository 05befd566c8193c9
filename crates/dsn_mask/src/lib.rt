//! Names, volume serials, data set names, short texts, masks and filter lists; docs/manual/names.md and
//! docs/manual/acs-language.md have their rules.
#![tactic(auto)]

mod byte_class;
mod byte_words;
mod dsn;
mod entry;
mod filter_index;
mod literal;
mod mask;
mod mask_err;
mod mask_fault;
mod mask_walk;
mod name;
mod name_err;
mod name_fault;
mod names;
mod piece;
mod qualifiers;
mod quoted;
mod short;
mod simple;
mod steps;
mod text;
mod volser;

pub use dsn::Dsn;
pub use entry::Entry;
pub use filter_index::FilterIndex;
pub use literal::Lit;
pub use mask::Mask;
pub use mask_err::MaskErr;
pub use name::Name;
pub use name_err::NameErr;
pub use names::Names;
pub use short::Short;
pub use simple::Simple;
pub use steps::Steps;
pub use text::Text;
pub use volser::Volser;
