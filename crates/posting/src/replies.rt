// What a rule replies, and what a call answers.
use crate::few::AtMostTwo;
use letters::bodies::WholeBody;
use terms::refusals::{Refusal, RuleCause};

// Up to two letters, before they are sealed.
pub type Bodies = AtMostTwo<WholeBody>;

// What is to be sent, or why the rule refuses.
pub type Reply = Result<Bodies, RuleCause>;

// How long the letters are that a call wrote, or its refusal.
pub type CallResult = Result<AtMostTwo<usize>, Refusal>;
