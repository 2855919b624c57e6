// The mesh chip: causes of refusal, routers, flows, and the routes that their packets take.
#![tactic(auto)]

pub mod flow;
pub mod limits;
mod mesh_router;
pub mod parameters;
pub mod port;
pub mod refusal;
pub mod route;
pub mod ticks;

pub use flow::Flow;
pub use limits::{MAX_FLOWS, MAX_PAIRS};
pub use parameters::{FlowParameters, Router};
pub use port::Port;
pub use refusal::Refusal;
pub use route::Route;
pub use ticks::Ticks;
