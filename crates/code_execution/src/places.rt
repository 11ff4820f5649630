//! Where calls are.
use call_execution::Rest;
use code_form::Function;

/// Where a call is: its function, what is left of its block, the numbers of its first register and scope among those of all calls, and where
/// its caller wants the result.
#[derive(Drop)]
pub(crate) struct CallPlace<'a> {
    pub(crate) function: &'a Function,
    pub(crate) rest: Rest<'a>,
    pub(crate) registers: usize,
    pub(crate) scopes: usize,
    pub(crate) destination: Option<u32>,
}
