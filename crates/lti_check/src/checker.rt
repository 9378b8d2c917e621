// Which kind of request a posted form is.
ghost use Rattle.std.specs.Prelude.{◌≡◌, IfOk};
ghost use Rattle.http_wire.specs.Message.{parts_of};
ghost use Rattle.oauth_text.specs.UrlView as view;
ghost use Rattle.lti_check.specs.Checked.{request_of};

use http_wire::Request;
use lti_machine::{Action, Call};
use lti_outside::{Bytes, Limits, NoMemory, Pair, Pairs, Text};
use lti_words::Check;
use oauth_request::{FORM_TYPE, Keys, check};
use oauth_text::Url;
use std::alloc::Global;

/// What `check` is asked, with all that is the same for each line.
#[derive(Drop)]
pub struct Checker<'a> {
    check: &'a Check<'a>,
    keys: Keys,
    pub limits: Limits,
}

/// Which kind of request a form is.
#[derive(Drop)]
pub enum Checked {
    /// It has a fault of status 400.
    BadForm,
    /// It has a fault of status 401.
    BadSignature,
    /// It is well signed, and makes this call.
    Signed(Call),
}

// The request that posts a form to the URL.
fn post(alloc: Global, url: &Url, form: &[u8]) -> Result<Request, NoMemory>
    ensures { IfOk result (λ request. parts_of request ≡ request_of (view.parts_of url.now) form.now) }
{
    let mut body = Bytes::new(alloc);
    body.push(form)?;
    Ok(Request {
        method: Text::new(alloc, "POST")?,
        path: url.path.copy()?,
        query: url.query.copy()?,
        host: url.host.copy()?,
        media: Text::new(alloc, FORM_TYPE)?,
        encoded: false,
        authorization: Text::empty(alloc),
        body,
        close: false,
    })
}

impl<'a> Checker<'a> {
    ghost use Rattle.std.specs.Prelude.{◌≡◌, IfOk};
    ghost use Rattle.lti_check.specs.CheckerView.{asked, IsReady, IsChecked};
    ghost use Rattle.lti_words.specs.CommandView.{check_of};
    ghost use Rattle.lti_words.specs.Command.{IsInRange};
    ghost use Rattle.lti_outside.specs.Limits.{IsSound};

    /// Makes ready for a command, whose key is the one that is known.
    pub fn new(
        alloc: Global,
        check: &'a Check<'a>,
        limits: &Limits,
    ) -> Result<Checker<'a>, NoMemory>
        requires sound { IsSound limits.now }
        requires range { IsInRange (check_of check.now) }
        ensures ready { IfOk result IsReady }
        ensures asked { IfOk result (λ checker. asked checker ≡ check_of check.now) }
        ensures limits { IfOk result (λ checker. checker.limits ≡ limits.now) }
    {
        let mut known = Pairs::new(alloc);
        known.push(Pair {
            name: Text::new(alloc, check.key)?,
            value: Text::new(alloc, check.secret)?,
        })?;
        let Ok(keys) = Keys::new(known) else {
            unreachable!();
        };
        Ok(Checker {
            check,
            keys,
            limits: *limits,
        })
    }

    /// Which kind of request a form is, where it is posted to the command's URL (RFC 5849, section 3.2).
    pub fn check(&self, alloc: Global, form: &[u8]) -> Result<Checked, NoMemory>
        requires { IsReady self.now }
        ensures { IfOk result (IsChecked (asked self.now) self.now.limits.field form.now) }
    {
        let url = &self.check.url;
        let request = post(alloc, url, form)?;
        // The sum of a form isn't looked at.
        let checked = check(
            alloc,
            &request,
            &[0; 20],
            &self.keys,
            url.scheme,
            &self.limits,
        );
        match checked {
            Ok(signed) => Ok(Checked::Signed(Call {
                caller: 0,
                moment: self.check.moment,
                key: signed.key,
                timestamp: signed.timestamp,
                nonce: signed.nonce,
                action: Action::Note,
            })),
            Err(fault) => match fault.status() {
                400 => Ok(Checked::BadForm),
                401 => Ok(Checked::BadSignature),
                _ => Err(NoMemory),
            },
        }
    }
}
