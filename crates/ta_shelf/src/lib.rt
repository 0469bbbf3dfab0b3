//! Files by name and sinks of bytes, in memory and real, with counts of what went wrong; and how
//! every command is done over them: its outputs are tried, its files read and judged, its answer's
//! files made, its text written, these files published; a refusal is told.
#![tactic(auto)]

mod answer;
mod beginning;
mod command;
mod comparing;
mod disk_shelf;
mod disk_stage;
mod entry;
mod failing;
mod fault;
mod file_reading;
mod files;
mod log;
mod memory_shelf;
mod memory_sink;
mod memory_stage;
mod performing;
mod phrase;
mod putting;
mod quiet_shelf;
mod quiet_sink;
mod reading;
mod retrying;
mod room;
mod shelf;
mod sink;
mod sparing;
mod staged_answer;
mod staged_end;
mod staged_file;
mod staging_command;
mod stalls;
mod std_sink;
mod system;
mod telling;
mod writing;

pub use answer::{Answer, Content, Outputs, Put, Refusal};
pub use command::Command;
pub use comparing::holds;
pub use disk_shelf::DiskShelf;
pub use disk_stage::{DiskStage, Making};
pub use entry::{Entry, Step};
pub use fault::{Failed, PutFault, ShelfFault, SinkFault, WholeFault};
pub use file_reading::{Limit, long_certificate, read_text, too_long, unread};
pub use files::are_distinct;
pub use log::Log;
pub use memory_shelf::MemoryShelf;
pub use memory_sink::MemorySink;
pub use memory_stage::MemoryStage;
pub use performing::{perform, perform_staging};
pub use phrase::Phrase;
pub use quiet_shelf::QuietShelf;
pub use quiet_sink::QuietSink;
pub use reading::{read_piece, read_whole};
pub use shelf::Shelf;
pub use sink::Sink;
pub use sparing::spare_read;
pub use staged_answer::{StagedAnswer, StagedOutput};
pub use staged_end::{answer_staged, let_go};
pub use staged_file::{StagedFile, add_texts_to_file, add_to_file, begin_file};
pub use staging_command::StagingCommand;
pub use std_sink::StdSink;
pub use telling::tell_line;
pub use writing::write_whole;
