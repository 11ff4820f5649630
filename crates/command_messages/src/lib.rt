//! What commands tell on two streams: how programs ended, what is refused and why, what programs wanted, and the table of what was counted, with the exit status.
#![tactic(auto)]

mod say;
mod stats;
mod wants;

pub use say::{
    REFUSED, STOPPED, WANTED, after, say_admission, say_end, say_ends, say_fault, say_finished,
    say_memory, say_refused, say_rest, say_unread, status_of, write_output,
};
pub use wants::{say_more, share_of, write_passed};
