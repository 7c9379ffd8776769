//! Messages of the LoRaWAN Backend Interfaces (TS002-1.1.0): requests read and answers written.
#![tactic(auto)]

mod answer;
mod body;
mod form;
mod head;
pub mod laws;
mod member;
mod members;
mod message;
mod message_type;
mod name;
mod number;
mod object;
mod refusal;
mod request;
mod session;
mod value;
mod writing;

pub use answer::{
    Answer, AnswerKeys, AppSKeyAnswer, HomeNsAnswer, JoinAnswer, KekLabel, KeyEnvelope, Outcome,
    UplinkAnswer, XmitDataAnswer,
};
pub use head::Head;
pub use members::answer_text;
pub use message::{Bad, Message, read_message};
pub use message_type::{MessageType, ReceiverKind, SenderKind};
pub use refusal::{Refusal, ResultCode};
pub use request::{
    AppSKeyRequest, HomeNsRequest, JoinRequest, Request, UplinkRequest, XmitDataRequest,
    XmitUplinkRequest,
};
pub use session::SessionKeyId;
