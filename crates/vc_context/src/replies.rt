//! Replies, from what queues and events answer.

ghost use Rattle.std.specs.Prelude.{◌≡◌, ℕ};
ghost use Rattle.vc_base.specs.declared.Errno.TheVariants.{Inval, NoMem, NoTty};
ghost use Rattle.vc_base.specs.declared.Reply.TheVariants.{Done, Count, Created, Value, Refused};
ghost use Rattle.vc_context.specs.Contexts.{told_of, refused_or_blocked, taken_or_blocked};

use vc_base::{Errno, Reply};

/// The reply where a call is refused.
pub fn refused(errno: Errno) -> Reply
    ensures { result ≡ Refused errno }
{
    Reply::Refused { errno }
}

/// The reply of a call that has nothing to tell.
pub fn told(answer: Result<(), Errno>) -> Reply
    ensures { result ≡ told_of (λ _. Done) answer }
{
    match answer {
        Ok(()) => Reply::Done,
        Err(errno) => Reply::Refused { errno },
    }
}

/// The reply of ReqBufs.
pub fn counted(answer: Result<u32, Errno>) -> Reply
    ensures { result ≡ told_of Count answer }
{
    match answer {
        Ok(count) => Reply::Count { count },
        Err(errno) => Reply::Refused { errno },
    }
}

/// The reply of CreateBufs.
pub fn created(answer: Result<(u32, u32), Errno>) -> Reply
    ensures { result ≡ told_of (λ a. Created a.0 a.1) answer }
{
    match answer {
        Ok((index, count)) => Reply::Created { index, count },
        Err(errno) => Reply::Refused { errno },
    }
}

/// The reply of a call that tells a value.
pub fn valued(answer: Result<u32, Errno>) -> Reply
    ensures { result ≡ told_of Value answer }
{
    match answer {
        Ok(value) => Reply::Value { value },
        Err(errno) => Reply::Refused { errno },
    }
}

/// The reply of a call that tells of a buffer.
pub fn told_or_refused(answer: Result<Reply, Errno>) -> Reply
    ensures { result ≡ told_of (λ reply. reply) answer }
{
    match answer {
        Ok(reply) => reply,
        Err(errno) => Reply::Refused { errno },
    }
}

/// The reply where a call is refused; where there is nothing to take, waiting helps.
pub fn refused_or_blocked(block: bool, errno: Errno) -> Reply
    ensures { result ≡ refused_or_blocked block errno }
{
    match errno {
        Errno::Again | Errno::NoEnt if block => Reply::Blocked,
        errno => Reply::Refused { errno },
    }
}

/// The reply of a call that takes a buffer or an event, or waits for one.
pub fn taken_or_blocked(block: bool, answer: Result<Reply, Errno>) -> Reply
    ensures { result ≡ taken_or_blocked block answer }
{
    match answer {
        Ok(reply) => reply,
        Err(errno) => refused_or_blocked(block, errno),
    }
}

/// The reply to a command that a context of the kind has not.
pub fn no_command() -> Reply
    ensures { result ≡ Refused NoTty }
{
    Reply::Refused {
        errno: Errno::NoTty,
    }
}

/// The reply where there is nothing of the number, event or control that the call names.
pub fn nothing_such() -> Reply
    ensures { result ≡ Refused Inval }
{
    Reply::Refused {
        errno: Errno::Inval,
    }
}

/// The reply where no memory is found.
pub fn no_memory() -> Reply
    ensures { result ≡ Refused NoMem }
{
    Reply::Refused {
        errno: Errno::NoMem,
    }
}
