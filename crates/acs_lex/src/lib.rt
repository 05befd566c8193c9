//! The scanner of ACS text: its one list of tokens, or the fault that is met first.
#![tactic(auto)]

mod bytes;
mod fault;
mod forms;
mod laws;
mod next_piece;
mod piece;
mod scanner;
mod token;

pub use bytes::is_blank;
pub use desk_common::MAX_WORD;
pub use fault::LexErr;
pub use laws::{token_laws, tokens_or_fault};
pub use next_piece::front_piece;
pub use piece::Piece;
pub use scanner::scan;
pub use token::{Token, TokenForm, Tokens};
