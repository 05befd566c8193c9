//! The tree of an ACS routine (docs/manual/acs-language.md, Tree).
#![tactic(auto)]

mod account;
mod accounting;
mod amounts;
mod attributes;
mod building;
mod check_err;
mod checked;
mod defaults;
mod ending;
mod environment;
mod given;
mod given_lists;
mod given_texts;
mod ident;
mod input;
mod kind;
mod line;
mod more;
mod numbers;
mod origin;
mod routine;
mod seen;
mod seen_texts;
mod slate;
mod values;
mod variable;
mod variables;
mod volumes;

pub use account::Account;
pub use accounting::Accounting;
pub use amounts::Amounts;
pub use attributes::Attributes;
pub use building::{with_operand, with_stmt, with_when};
pub use check_err::CheckErr;
pub use checked::Checked;
pub use defaults::Defaults;
pub use ending::Ending;
pub use environment::Environment;
pub use given::Given;
pub use given_lists::GivenLists;
pub use given_texts::GivenTexts;
pub use ident::{Ident, is_upper};
pub use input::{Input, kilobytes_of};
pub use kind::Kind;
pub use line::Line;
pub use more::More;
pub use numbers::{are_digits, is_number, is_size, number, size};
pub use origin::Origin;
pub use routine::{
    Block, Compare, Cond, Form, Operand, OperandForm, Operands, Ref, Routine, Stmt, When, WhenTest,
    Whens,
};
pub use seen::Seen;
pub use seen_texts::SeenTexts;
pub use slate::{Slate, same_kind};
pub use values::Values;
pub use variable::{Indexing, Variable, VariableKind};
pub use volumes::Volumes;
