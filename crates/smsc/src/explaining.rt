//! What is said of a call that didn't end well, for the person at the terminal (docs/manual/tool.md, "What a fault
//! means").
use tool_calls::ToolStatus;

/// What a status alone tells: what failed, and what stands. Empty where all was written.
pub fn sentence_of(status: ToolStatus) -> &'static str {
    match status {
        ToolStatus::Done | ToolStatus::FaultFound => "",
        ToolStatus::BadWords => {
            "the words of the command line are none that the program knows, or one isn't UTF-8; nothing was read\n"
        }
        ToolStatus::ReadFault => "standard input can't be read; nothing was written\n",
        ToolStatus::WriteFault => {
            "standard output can't be written; a front of the text may be there\n"
        }
        ToolStatus::Script(_) => "the script has a fault in that line; nothing was written\n",
        ToolStatus::TooLong => {
            "the input has too many bytes: a routine has at most 65536, any other input 16777216; \
            nothing was written\n"
        }
        ToolStatus::NoMemory => "memory is wanting; nothing was written\n",
    }
}
