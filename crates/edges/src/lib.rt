// The edges of every constructor and of every call of the boards, and what the shared
// vocabulary answers, run.
#![tactic(auto)]

#[cfg(test)]
mod calls;
#[cfg(test)]
mod making;
#[cfg(test)]
mod telling;
