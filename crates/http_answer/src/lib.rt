//! The reading of an answer to a GET of HTTP/1.1 as its bytes come (RFC 9112): the head of a 200, and the body that ends by
//! `Content-Length`, by chunks or with the stream.
//!
//! Promises: `HttpAnswer::take` and `HttpAnswer::end` give the body of the bytes that came exactly where they are an answer within the limits,
//! in whatever pieces they came; any other bytes are refused for the reason that is told (`specs/Answers.antt`).
//! Stands on httparse.
#![tactic(auto)]

mod answer;
mod chunks;
mod fault;
mod fields;
mod head;
mod stage;
mod unchunking;

pub use crate::answer::{AnswerError, AnswerSoFar, HttpAnswer};
pub use crate::fault::{AnswerFault, Misframed};
