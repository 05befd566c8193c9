//! The text of a script, and of its answers.
#![tactic(auto)]

mod allocation;
mod command;
mod deck_block;
mod fault_text;
mod further_text;
mod granted_text;
mod indenting;
mod item;
mod line_words;
mod lines;
mod lists;
mod next;
mod op;
mod operand;
mod parts;
mod printing;
mod pushing;
mod reading;
mod reply_text;
mod script_err;
mod targets;
mod text_lines;
mod trace_text;
mod value;
mod verb;

pub use fault_text::push_fault;
pub use item::{Item, Phase, Script};
pub use lines::{first_line, is_block_end, line_text};
pub use op::read_op;
pub use operand::{KEYS, is_key};
pub use printing::{answer_lines, print, view_lines};
pub use pushing::{push_number_and_blank, push_word_and_blank, status_bytes, value_bytes};
pub use reading::read_script;
pub use script_err::ScriptErr;
pub use text_lines::TextLines;
pub use trace_text::push_trace;
