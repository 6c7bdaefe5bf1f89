//! The journal of a host: the lines for its calls, and a host over any host that writes them.
#![tactic(auto)]

mod audit_fault;
mod cutting;
mod draft;
mod fields;
mod history;
mod journal;
mod journal_host;
mod journaling;
pub mod laws;
mod looking;
mod memory_sink;
mod reading;
mod said;
mod sink;
mod spelling;
mod texts;

pub use audit_fault::AuditFault;
pub use draft::Draft;
pub use fields::LineFault;
pub use journal_host::JournalHost;
pub use looking::{Looked, is_open, look};
pub use memory_sink::MemorySink;
pub use reading::{read_answer, read_arrival, read_call, read_done, read_found, read_reading};
pub use said::{Answer, Call};
pub use sink::Sink;
pub use spelling::{spell_job, spell_keep, spell_kept, spell_open, spell_send};
pub use texts::{TextFault, read_lines};
