//! The small types that every layer shares, places in a text, and the outside world as traits whose
//! contracts say what a call did and when it may fail.
#![tactic(auto)]

mod cursor;
mod edit;
mod fail_plan;
mod files;
pub mod laws;
mod line_table;
mod memory_files;
mod memory_sink;
mod memory_source;
mod place;
mod real_files;
mod real_streams;
mod sink;
mod source;
mod text;

pub use cursor::{CharSet, Cursor, is_white};
pub use edit::replace;
pub use el_base::{Many, NoMemory};
pub use files::{FileRead, FileWrite, Files};
pub use line_table::LineTable;
pub use memory_files::{MemoryFiles, SureFiles};
pub use memory_sink::{MemorySink, SureSink};
pub use memory_source::{MemorySource, SureSource};
pub use place::{Pos, Span};
pub use real_files::RealFiles;
pub use real_streams::{RealSink, RealSource};
pub use sink::{PutError, Sink};
pub use source::{Failed, Source};
pub use text::Text;
