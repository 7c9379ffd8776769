//! The operator's tables file: the desk, the networks, what was agreed with them, other join
//! servers, applications, gateways and devices; read, checked and looked up.
#![tactic(auto)]

mod agreement;
mod application;
mod desk;
mod device;
mod eui_list;
mod fault;
mod flaw;
mod form;
mod gateway;
mod join_server;
mod key;
pub mod laws;
mod named_rows;
mod network;
mod reading;
mod rows;
mod section;
mod sections;
mod tables;
mod unread;

pub use eui_list::EuiList;
pub use fault::TablesFault;
pub(crate) use named_rows::{Named, NamedRows};
pub use rows::{
    AgreementRow, ApplicationRow, DeskRow, DeviceRow, GatewayRow, JoinServerRow, NetworkRow,
    Passive,
};
pub use tables::{Tables, read_tables};
pub use unread::Unread;
