//! The program `lotbook`: it does what its arguments ask for.
//!
//! - `system`: the system as the host of a call. What a call does is in `lot_host`.
//! - `answer`: what the call is for is done there, and standard error says what there is to say.
//! - `comparison`: the old book beside which one is restored.
//! - `showing`: what a broker's export comes to, where no book is opened.
//! - `keeper`: the reader of a call, which keeps what was read.
//! - `stack`: the stack, which can't grow where memory has ended.
#![tactic(auto)]

mod answer;
mod comparison;
mod keeper;
mod showing;
mod stack;
mod system;

use crate::stack::grow_stack;
use crate::system::System;
use lot_call::{out_of_memory, read_words, words_of};
use lot_files::Failure;
use lot_host::run;
use std::process::ExitCode;

fn main(rt: HostRuntime) -> ExitCode {
    if !grow_stack(&rt) {
        return ExitCode::from(out_of_memory(&rt));
    }
    let failure = Failure::none();
    let mut system = System::new(&rt, &failure);
    let words = words_of(&rt, read_words(&rt));
    ExitCode::from(run(&mut system, rt.alloc(), words))
}
