// How every function of the library answers. Each function says by itself what it lays where on an acceptance: what they have in common is `ACCEPTED` and
// `refused`, and one function more would be no plainer.
ghost use Rattle.std.specs.Prelude.{◌≡◌, Err};
ghost use Rattle.ordc.specs.Reply.{reply_to};

use text_refusal::refusal::Refusal;

// A refusal's number and line; both 0 where nothing was refused, since it is a struct of the C interface.
#[repr(C)]
#[derive(Clone, Copy)]
pub struct Reply {
    pub number: u64,
    pub line: u64,
}

// The answer where nothing was refused.
pub(crate) const ACCEPTED: Reply = Reply { number: 0, line: 0 };

// A refusal that was found, as hosts see it. A function and no `From`: contracts name `reply_to`, which answers for an acceptance too.
pub(crate) fn refused(found: Refusal) -> Reply
    ensures { result ≡ reply_to (Err found) }
{
    let number = found.number;
    let line = found.line as u64;
    Reply { number, line }
}
