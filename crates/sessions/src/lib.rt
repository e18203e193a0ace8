// A planner's session at a console: what is asked about, a pool with the grants that are out, and a job. A command is
// performed on values; the law of what commands come to stands on `Session::perform`.
#![tactic(auto)]

pub mod fault;
pub mod opened;
pub mod reply;
pub mod session;
pub mod setting;
pub mod shown;

pub use fault::CommandFault;
pub use opened::Opened;
pub use reply::Reply;
pub use session::Session;
pub use setting::Setting;
pub use shown::Shown;
