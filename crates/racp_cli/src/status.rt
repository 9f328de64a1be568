//! The statuses with which the program ends.

pub use racp_lexfix::status::{
    CHECK_FAILED, DONE, IMPOSSIBLE, OUT_OF_MEMORY, REFUSED, STOPPED, STREAM_FAILED,
};
