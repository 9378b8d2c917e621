// A call that leaves only its nonce, over the window of nonces.
ghost use Rattle.std.specs.Prelude.{◌≡◌, ℕ, IfOk};
ghost use Rattle.lti_check.specs.Noting.{Notes};
ghost use Rattle.lti_machine.specs.declared.call.Action.TheVariants.{Note};

use lti_machine::{Call, Reply, Verdict};
use lti_outside::NoMemory;
use nonce_window::NonceWindow;

/// Answers a call that leaves only its nonce by the rules over all calls that the window holds, and adds it to them exactly
/// where it is accepted. On `NoMemory` the window holds what it held.
pub fn note(window: &mut NonceWindow, call: &Call) -> Result<Reply, NoMemory>
    requires { call.now.action ≡ Note }
    ensures { IfOk result (λ reply. (limit : ℕ) → Notes limit window.old call.now reply window.new) }
{
    let now = call.moment.max(window.high());
    let key = call.key.get();
    let nonce = call.nonce.get();
    match window.judge(now, key, call.timestamp, nonce) {
        Verdict::New => {}
        Verdict::Outside => return Ok(Reply::Outside { now }),
        Verdict::Used => return Ok(Reply::Used),
        Verdict::WindowFull { live } => return Ok(Reply::WindowFull { live }),
    }
    window.prepare(key, call.timestamp, nonce)?;
    window.admit(now, key, call.timestamp, nonce);
    Ok(Reply::Noted)
}
