// What a caller does.
ghost use Rattle.std.specs.Prelude.{◌≡◌, ◌≤◌, ◌<◌, ◌+◌, [], true, false, length, IfOk};
ghost use Rattle.lt_spec.specs.NodeMove.{home};
ghost use Rattle.lt_live.specs.Words.{known_replies};
ghost use Rattle.lt_live_serve.specs.Completing.{Calls, left_of};

use crate::callers::Caller;
use crate::limits::TRIES;
use std::alloc::AllocError;

impl Caller {
    /// The node of its client.
    pub(crate) fn home(&self) -> u8
        ensures { result ≡ home self.now.session.script self.now.session.client }
    {
        self.session.script().home(self.session.client())
    }

    /// Submits the next command of its client; false where there is none any more.
    #[tactic(auto, using(crate::proofs::Beside::has_left, crate::proofs::Beside::has_place, crate::proofs::Beside::targets_of, crate::proofs::Beside::modes_of, crate::proofs::Beside::one_more, crate::proofs::Beside::submitted_count))]
    pub(crate) fn submit_next(&mut self) -> bool
        ensures calls { Calls self.old self.new }
        ensures one { result ≡ true → left_of self.new < left_of self.old }
        ensures none { result ≡ false → left_of self.new ≡ 0 }
    {
        if self.next == self.commands.len() {
            return false;
        }
        self.session.left();
        match self.session.submit(self.commands[self.next]) {
            Ok(()) => {
                self.next += 1;
                true
            }
            Err(_) => unreachable!(),
        }
    }

    /// Polls for a reply; false where none is known here.
    pub(crate) fn hear(&mut self) -> Result<bool, AllocError>
        ensures calls { Calls self.old self.new }
        ensures more { IfOk result (λ more. more ≡ true → length self.new.heard.items ≡ length self.old.heard.items + 1) }
        ensures none { IfOk result (λ more. more ≡ false → (self.new.heard.items ≡ self.old.heard.items) × (known_replies self.old.session ≡ [])) }
    {
        self.heard.reserve(1)?;
        let Some(reply) = self.session.poll() else {
            return Ok(false);
        };
        self.heard.push_reserved(reply);
        Ok(true)
    }

    /// Submits commands and polls for replies, for a while.
    #[tactic(auto, using(crate::proofs::Lasting::calls_itself, crate::proofs::Lasting::calls_join))]
    pub(crate) fn call(&mut self)
        ensures { Calls self.old self.new }
    {
        for _ in 0..TRIES {
            self.call_once();
        }
    }

    #[tactic(auto, using(crate::proofs::Lasting::calls_itself, crate::proofs::Lasting::calls_join))]
    fn call_once(&mut self)
        ensures { Calls self.old self.new }
    {
        self.submit_next();
        let _ = self.hear();
    }
}
