//! What tools that are no Rattle open, and the calls on it: each answer is a status and a number, and a text where the call has one.
#![tactic(auto)]

mod calls;
mod desk_calls;
mod opened;
mod opening;
mod out;
mod texts;
mod view_calls;

pub use call_status::{Status, Told};
pub use calls::{Call, DeskCall, ViewCall, ask, open_questions, open_view};
pub use opened::{Inside, Opened};
pub use opening::open;
pub use out::DescriptorOut;
pub use question_calls::QuestionCall;
pub use texts::{report_to, write_to};
