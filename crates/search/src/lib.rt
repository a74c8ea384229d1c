// The search of a record's task (`entry`): the weights of its patterns, the estimate of a packed state, examining states and outcomes (`examine`), what is remembered of
// them (`memory`), rounds, and writing the plan that was found (`write`).
#![tactic(auto)]

mod affordable;
mod buffer;
mod built;
mod byte_rows;
mod carried;
mod constants;
mod depth;
pub mod entry;
mod estimate;
mod examine;
mod instance;
mod memory;
mod owners;
mod rounds;
mod weights;
mod write;
mod written;
