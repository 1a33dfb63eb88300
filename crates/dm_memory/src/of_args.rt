//! The words that the program is given. The system tells want of memory for them by a kind of error of its own, and hands
//! no allocation's error on: so the kind is turned into want of memory here, at the call that it answers.
ghost use Rattle.std.specs.Prelude.{◌≡◌, ◌↔◌, IfErr, IfOk, IsErrAnd};
ghost use Rattle.std.specs.IoError.{error_kind};
ghost use Rattle.std.specs.Vec.Iter.{into_iter_steps};
ghost use Rattle.std.specs.Iterator.Runs.{WholeRun};
ghost use Rattle.dm_memory.specs.Args.{ArgsLackMemory};

use crate::NoMemory;
use std::alloc::Global;
use std::env;
use std::env::Args;
use std::io::{self, ErrorKind};

/// Why there are no words.
#[derive(Clone, Copy, Debug)]
pub enum ArgsError {
    /// One isn't Unicode.
    Unread,
    /// No memory was left.
    NoMemory(NoMemory),
}

/// The words that the program was given, its own name first.
pub fn args(rt: &HostRuntime) -> Result<Args, ArgsError> {
    of_args(env::args(rt))
}

/// The words, or why there are none. It isn't public: who could call it with an error of one's own could tell want of memory.
fn of_args(given: io::Result<Args>) -> Result<Args, ArgsError>
    ensures words { IfOk given (λ args. result ≡ Ok args) }
    ensures none { IfErr given (λ error. IsErrAnd result (λ why. ArgsLackMemory why ↔ (error_kind error ≡ ErrorKind.OutOfMemory))) }
{
    match given {
        Ok(args) => Ok(args),
        Err(error) => Err(no_args(error.kind())),
    }
}

/// Why there are no words: only one kind of error is want of memory.
fn no_args(kind: ErrorKind) -> ArgsError
    ensures { ArgsLackMemory result ↔ (kind ≡ ErrorKind.OutOfMemory) }
{
    match kind {
        ErrorKind::OutOfMemory => ArgsError::NoMemory(NoMemory(())),
        _ => ArgsError::Unread,
    }
}

/// All these words, in order.
pub fn collect(alloc: Global, args: Args) -> Result<Vec<String>, NoMemory>
    ensures { IfOk result (λ words. WholeRun into_iter_steps args (λ run. words.items ≡ run.items)) }
{
    match args.collect::<Vec<String>>(alloc) {
        Ok(words) => Ok(words),
        Err(_) => Err(NoMemory(())),
    }
}
