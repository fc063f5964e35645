//! Values of settings, and the settings of a block in the order of their calls.
#![tactic(auto)]

pub mod fault;
pub mod timeline;
pub mod value;

pub use fault::SettingFault;
pub use stream_model::Wanted;
pub use timeline::Timeline;
pub use value::{Held, Taps, Value};
