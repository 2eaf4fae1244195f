//! The text that the programs read and print: the words and numbers of a line, tables and rows at the start, events,
//! replies, and the lines of a log.
//!
//! A line is bytes; only a comment has to be UTF-8. It is cut into `words` at single spaces (`cut`), and some of these
//! are numbers (`number`).
//!
//! - `lines` reads the lines of a script, and says what each is about.
//! - `command` reads the event that the words give, and `kept` is the short form in which it is kept.
//! - `printing` writes the reply to an event, by `short`, and by `hex_text` for bytes.
//! - `heads` writes the lines of tables and of rows at the start, which `lines` reads back.
//! - `log_lines` writes the records of a log file.
//!
//! The texts are defined in `specs/Lines.antt`, `specs/Command.antt`, `specs/Printing.antt`, `specs/Heads.antt` and
//! `specs/LogLines.antt`.
#![tactic(auto)]

pub mod command;
pub mod cut;
pub mod heads;
pub mod hex_text;
pub mod kept;
pub mod laws;
pub mod lines;
pub mod log_lines;
pub mod number;
pub mod printing;
pub mod short;
pub mod words;
