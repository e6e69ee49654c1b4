// The language of scripts. A script is bytes, one command to a line, and each command is answered by a
// line:
//
//     W 05 2A             write 2A into the register at offset 05          OK
//     R 05                read that register                               2A
//     F 000100 4A6F7921   fill memory from 000100 on with four bytes       OK
//     M 000100 04         show four bytes of memory                        4A6F7921
//     S 10                make sixteen bus steps                           a line for each, and one for the end
//     w 05 2A             no command: the letter is not a capital          E 06
//
// `lines` cuts a script into lines, `parse` says which command a line is, and `text` has the bytes of a
// fill and writes the answers. Nothing here acts on a command.
#![tactic(auto)]

pub mod command;
pub mod digits;
pub mod lines;
pub mod parse;
#[cfg(test)]
mod tests;
pub mod text;
